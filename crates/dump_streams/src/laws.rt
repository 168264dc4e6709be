//! Laws of dumps.

ghost use Rattle.std.specs.Prelude.{List, ℕ, ◌≡◌, ◌≤◌, ◌++◌, length};
ghost use Rattle.store_model.specs.Parameters.{Parameters, IsParameters};
ghost use Rattle.store_model.specs.Trees.{Tree};
ghost use Rattle.store_model.specs.Pages.{Fits};
ghost use Rattle.store_model.specs.Scripts.{script_limit};
ghost use Rattle.store_model.specs.Pages.{IsTreeUnder};
ghost use Rattle.dump_streams.specs.Dumps.{DumpStep, dump, dump_text, IsListing};
ghost use Rattle.dump_streams.specs.Laws.{HasDump, RunsListing};

/// The first steps of a dump are a dump, however many they are, and a dump tells its tree. So a listing can be judged
/// step by step.
pub fn every_front_of_a_dump_is_a_dump()
    ensures front { (t : Tree) (p : Parameters) (first rest : List DumpStep) → IsTreeUnder t p
        → dump t ≡ first ++ rest → HasDump first p }
    ensures tells { (t u : Tree) (p : Parameters) → IsTreeUnder t p → IsTreeUnder u p
        → dump t ≡ dump u → t ≡ u }
{}

/// Where a tree fits an image, each step of its dump is carried out by `run` on the empty image: each tree on the
/// way fits, and the last one is the tree. So it is with every listing of the tree.
pub fn every_listing_runs()
    ensures law { (t : Tree) (p : Parameters) (script : List ℕ) → IsTreeUnder t p
        → Fits t p → IsListing t script
        → RunsListing t p script }
{}

/// The dump of a tree that fits an image, however large the image is, keeps the limit of a script; each of its lines
/// keeps that of a line and asks for its step. So it is a listing of the tree, and can always be loaded.
pub fn every_dump_is_a_script()
    ensures short { (t : Tree) (p : Parameters) → IsParameters p → IsTreeUnder t p → Fits t p
        → length (dump_text t) ≤ script_limit }
    ensures listing { (t : Tree) (p : Parameters) → IsTreeUnder t p → IsListing t (dump_text t) }
{}
