//! Replies to scripts on the empty tree, and trees that scripts leave.
#![tactic(auto, unfolding(crate::specs::Compute::everything))]

ghost use Rattle.std.specs.Prelude.{◌≡◌, ℕ, ◌+◌, ◌*◌, List, [], ◌∷◌, ◌++◌, codes, replicate};
ghost use Rattle.store_model.specs.Scripts.{answers_by, state_by};
ghost use Rattle.model_laws.specs.Examples.{ruler, text, output, tree};

/// Questions that are answered by the sum so far: each from the state that those before it left.
pub fn answers_one_after_another()
    ensures answers { answers_by (λ sum n. (10 * sum + n, sum + n)) 0 (1 ∷ 2 ∷ 3 ∷ [])
        ≡ 1 ∷ 12 ∷ 33 ∷ [] }
    ensures state { state_by (λ sum n. (10 * sum + n, sum + n)) 0 (1 ∷ 2 ∷ 3 ∷ []) ≡ 6 }
{}

/// A directory that needs more pages than the table has is refused with both numbers, and a rename too:
/// only the new tree's pages are counted.
pub fn full_tables()
    ensures make { output (ruler 2 2) (text ("make /Ua" ∷ "make /UU" ∷ []))
        ≡ text ("ok" ∷ "no full 3 2" ∷ []) }
    ensures rename { output (ruler 2 2)
        (text ("make /Ua" ∷ "make /UU" ∷ "make /a" ∷ "rename /a /A" ∷ [])) ≡
        text ("ok" ∷ "no full 3 2" ∷ "ok" ∷ "no full 3 2" ∷ []) }
    ensures eleventh { output (ruler 1 1)
        (text ("make /a" ∷ "make /b" ∷ "make /c" ∷ "make /d" ∷ "make /e" ∷ "make /f" ∷ "make /g"
        ∷ "make /h" ∷ "make /i"
        ∷ "make /j" ∷ "make /k" ∷ [])) ≡
        text ("ok" ∷ "ok" ∷ "ok" ∷ "ok" ∷ "ok" ∷ "ok" ∷ "ok" ∷ "ok" ∷ "ok" ∷ "ok"
        ∷ "no full 2 1" ∷ []) }
{}

/// A write past the end is refused, one of no bytes makes an empty file, and the root is no file.
pub fn small_files()
    ensures { output (ruler 4 1)
        (text ("write /f 1 00" ∷ "write /f 0 -" ∷ "list /" ∷ "write / 0 00" ∷ "cut / 0" ∷ []))
        ≡
        text ("no gap" ∷ "ok" ∷ "f f 0" ∷ "end" ∷ "no kind" ∷ "no kind" ∷ []) }
{}

/// What a rename refuses, in its order.
pub fn refused_renames()
    ensures roots { output (ruler 4 1)
        (text ("make /d" ∷ "rename /d /d/x" ∷ "rename /d /d" ∷ "rename / /x" ∷ "rename /q /" ∷ []))
        ≡
        text ("ok" ∷ "no inside" ∷ "no exists" ∷ "no root" ∷ "no root" ∷ []) }
    ensures others { output (ruler 4 1)
        (text ("make /d" ∷ "make /e" ∷ []) ++ codes "make /e/" ++ replicate 117 0x78
        ++ 10 ∷ text ("rename /d /ddd" ∷ "rename /e /ee" ∷ "rename /e /f" ∷ [])) ≡
        text ("ok" ∷ "ok" ∷ "ok" ∷ "ok" ∷ "no path" ∷ "ok" ∷ []) }
    ensures deepest { output (ruler 4 1)
        (text ("make /d" ∷ []) ++ codes "make /d/" ++ replicate 117 0x78 ++ 10
        ∷ text ("rename /d /dd" ∷ "rename /d /e" ∷ [])) ≡
        text ("ok" ∷ "ok" ∷ "no path" ∷ "ok" ∷ []) }
{}

/// `space` counts pages: eleven directories take two, ten take one.
pub fn space_counts_pages()
    ensures { output (ruler 4 1)
        (text ("make /a" ∷ "make /b" ∷ "make /c" ∷ "make /d" ∷ "make /e" ∷ "make /f" ∷ "make /g"
        ∷ "make /h" ∷ "make /i"
        ∷ "make /j" ∷ "make /k" ∷ "space" ∷ "remove /a" ∷ "space" ∷ [])) ≡
        text ("ok" ∷ "ok" ∷ "ok" ∷ "ok" ∷ "ok" ∷ "ok" ∷ "ok" ∷ "ok" ∷ "ok"
        ∷ "ok" ∷ "ok" ∷ "space 2 4"
        ∷ "ok" ∷ "space 1 4" ∷ []) }
{}

/// Writes over and behind what is there, reads at, before and past the end, and a cut.
pub fn contents_of_a_file()
    ensures { output (ruler 4 1)
        (text ("write /f 0 010203" ∷ "write /f 1 FF" ∷ "read /f 0 10" ∷ "read /f 3 1"
        ∷ "read /f 4 1" ∷ "read /f 0 4097"
        ∷ "cut /f 1" ∷ "list /" ∷ [])) ≡
        text ("ok" ∷ "ok" ∷ "ok 01ff03" ∷ "ok -" ∷ "no gap" ∷ "no big" ∷ "ok"
        ∷ "f f 1" ∷ "end" ∷ []) }
{}

/// A read gives the bytes from its place on, as many as it asks for or as there are; a cut keeps the bytes in
/// front, all of them where it is at just the length.
pub fn read_and_cut_bytes()
    ensures middle { output (ruler 4 1)
        (text ("write /f 0 0102030405" ∷ "read /f 1 1" ∷ "read /f 1 3" ∷ "read /f 3 9"
        ∷ "read /f 2 0" ∷ [])) ≡
        text ("ok" ∷ "ok 02" ∷ "ok 020304" ∷ "ok 0405" ∷ "ok -" ∷ []) }
    ensures cut { output (ruler 4 1)
        (text ("write /f 0 010203" ∷ "cut /f 4" ∷ "cut /f 3" ∷ "read /f 0 9" ∷ "cut /f 2"
        ∷ "read /f 0 9" ∷ "cut /f 0"
        ∷ "read /f 0 9" ∷ "list /" ∷ [])) ≡
        text ("ok" ∷ "no gap" ∷ "ok" ∷ "ok 010203" ∷ "ok" ∷ "ok 0102" ∷ "ok" ∷ "ok -"
        ∷ "f f 0" ∷ "end" ∷ []) }
{}

/// A directory lists what stands directly in it, in the order of names: neither what lies deeper nor what lies
/// elsewhere.
pub fn listed_directories()
    ensures { output (ruler 4 1)
        (text ("make /a" ∷ "make /a/d" ∷ "make /a/d/e" ∷ "write /a/c 0 0102"
        ∷ "write /a/d/f 0 -" ∷ "make /a.b"
        ∷ "make /d" ∷ "list /" ∷ "list /a" ∷ "list /a/d" ∷ "list /a/d/e" ∷ [])) ≡
        text ("ok" ∷ "ok" ∷ "ok" ∷ "ok" ∷ "ok" ∷ "ok" ∷ "ok" ∷ "d a" ∷ "d a.b" ∷ "d d" ∷ "end"
        ∷ "f c 2" ∷ "d d" ∷ "end"
        ∷ "d e" ∷ "f f 0" ∷ "end" ∷ "end" ∷ []) }
{}

/// Blocks of 256 bytes: a file of 257 bytes takes three pairs, which the cut to 256 makes two.
pub fn blocks_of_a_file()
    ensures { output (ruler 4 1) (codes "write /f 0 " ++ replicate 512 0x30 ++ 10
        ∷ text ("write /f 256 00" ∷ "space" ∷ "cut /f 256" ∷ "cut /f 257" ∷ [])) ≡
        text ("ok" ∷ "ok" ∷ "space 1 4" ∷ "ok" ∷ "no gap" ∷ []) }
{}

/// A directory with a child is not removed but pruned, and nothing is left of it.
pub fn pruned_directory()
    ensures replies { output (ruler 4 1)
        (text ("make /d" ∷ "write /d/f 0 00" ∷ "remove /d" ∷ "prune /d" ∷ "list /" ∷ [])) ≡
        text ("ok" ∷ "ok" ∷ "no notempty" ∷ "ok" ∷ "end" ∷ []) }
    ensures tree { tree (ruler 4 1)
        (text ("make /d" ∷ "write /d/f 0 00" ∷ "remove /d" ∷ "prune /d" ∷ "list /" ∷ []))
        ≡ [] }
{}

/// A renamed directory is the tree in which it had the new name from the start.
pub fn renamed_directory()
    ensures replies { output (ruler 4 1)
        (text ("make /a" ∷ "write /a/f 0 41" ∷ "rename /a /b" ∷ "read /b/f 0 1"
        ∷ "list /a" ∷ "list /b/f" ∷ [])) ≡
        text ("ok" ∷ "ok" ∷ "ok" ∷ "ok 41" ∷ "no missing" ∷ "no kind" ∷ []) }
    ensures tree { tree (ruler 4 1) (text ("make /a" ∷ "write /a/f 0 41" ∷ "rename /a /b" ∷ [])) ≡
        tree (ruler 4 1) (text ("make /b" ∷ "write /b/f 0 41" ∷ [])) }
{}
