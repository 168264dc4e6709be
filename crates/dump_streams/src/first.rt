//! Makes steps of the first pairs of places.

ghost use Rattle.std.specs.Prelude.{◌≡◌, ◌<◌, ◌≤◌, ℕ, List, [], ◌∷◌, None, Some, length};
ghost use Rattle.store_model.specs.declared.version.Version.{Version};
ghost use Rattle.store_model.specs.Parameters.{Parameters};
ghost use Rattle.store_model.specs.Trees.{Node, IsNode, attribute_limit, file_limit};
ghost use Rattle.store_model.specs.Pairs.{attribute_value};
ghost use Rattle.dump_streams.specs.Dumps.{node_steps};
ghost use Rattle.dump_streams.specs.Dumps.DumpStep.{Set};
ghost use Rattle.dump_streams.specs.Making.{Makes};
ghost use Rattle.dump_streams.specs.Spots.{Spot, IsSpot, first_pair, later_pairs, spot_steps, node_value};
ghost use Rattle.dump_streams.specs.Spots.Spot.{Stands};

use crate::DumpStep;
use crate::maker::{OpenFile, StepMaker};
use crate::taken::Taken;
use path_keys::{AttrName, Path, of_attr_key};
use store_base::{Key, Value};
use tree_pairs::{Kind, attribute_in, inline_in, kind_told};

impl StepMaker {
    /// Takes the first pair of a place, while no file is open.
    pub fn take_first(&mut self, pair: (Key, Value), into: &mut DumpStep) -> Taken
        requires { self.old.file ≡ None }
        ensures { (p : Parameters) (spot : Spot) → IsSpot spot → pair ≡ first_pair p spot
            → Makes (later_pairs p spot) (spot_steps spot) self.new into.new result }
    {
        let (key, value) = pair;
        if let Some((path, name)) = of_attr_key(&key) {
            return take_attribute(path, name, &value, into);
        }
        match Path::of_key(&key) {
            Some((path, 0)) => self.take_node(path, &Some(value), into),
            _ => Taken::Refused,
        }
    }

    /// Takes the first pair of what stands at a path, while no file is open.
    fn take_node(&mut self, path: Path, first: &Option<Value>, into: &mut DumpStep) -> Taken
        requires { self.old.file ≡ None }
        ensures { (p : Parameters) (node : Node) → IsNode node
            → first.now ≡ Some (node_value p.version node)
            → Makes (later_pairs p (Stands path node)) (node_steps path node) self.new into.new result }
    {
        if let Some(bytes) = inline_in(first) {
            into.write(path, 0, bytes);
            return Taken::Step;
        }
        match kind_told(first) {
            Some(Kind::Directory) => {
                into.make(path);
                Taken::Step
            }
            Some(Kind::File(0)) => {
                into.write(path, 0, &[]);
                Taken::Step
            }
            Some(Kind::File(len)) => {
                self.piece.clear();
                self.file = Some(OpenFile {
                    path,
                    at: 0,
                    left: len,
                });
                Taken::More
            }
            None => Taken::Refused,
        }
    }
}

/// Takes the pair of an attribute, which has this value.
fn take_attribute(path: Path, name: AttrName, value: &Value, into: &mut DumpStep) -> Taken
    ensures { (bytes : List ℕ) → length bytes ≤ attribute_limit → value.now ≡ attribute_value bytes
        → (result ≡ Taken.Step) × (into.new ≡ Set path name bytes) }
{
    match attribute_in(value.as_slice()) {
        Some(bytes) => {
            into.set(path, name, bytes);
            Taken::Step
        }
        None => Taken::Refused,
    }
}
