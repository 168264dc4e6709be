//! Attributes of paths: their keys and pairs, what commands answer on them, and what is refused.
#![tactic(auto, unfolding(crate::specs::Compute::everything))]

ghost use Rattle.std.specs.Prelude.{◌≡◌, ℕ, List, [], ◌∷◌, ◌++◌, map, codes, replicate, true, false, Some, Err};
ghost use Rattle.store_model.specs.declared.refusal.Refusal.TheVariants as refusals;
ghost use Rattle.store_model.specs.Lists.{zeros};
ghost use Rattle.store_model.specs.Paths.{Path, fits_attribute, is_attribute_name};
ghost use Rattle.store_model.specs.Trees.{IsTree};
ghost use Rattle.store_model.specs.Images.{slot_bytes};
ghost use Rattle.store_model.specs.Grammar.{parse};
ghost use Rattle.store_model.specs.Pages.{Fits};
ghost use Rattle.model_laws.specs.Examples.{ruler, ruler_two, text, directory_with, write_line, output, tree};
ghost use Rattle.model_laws.specs.Examples.{pair_list, key_of, block_key, start_label, page, directory_cell};

/// The pair of the attribute `k` of `/d` with the byte 41 stands behind that of `/d`, and so does its cell.
pub fn pair_of_an_attribute()
    ensures pairs { pair_list (ruler_two 4 1) (text ("make /d" ∷ "set /d k 41" ∷ [])) ≡
        (key_of (codes "d"), 1 ∷ []) ∷ (0x64 ∷ 0 ∷ 1 ∷ 0x6b ∷ zeros 120, 4 ∷ 0x41 ∷ []) ∷ [] }
    ensures slot { slot_bytes
        (Some (page (start_label 0 0) (directory_cell (codes "d") ∷ record {
          key = 0x64 ∷ 0 ∷ 1 ∷ 0x6b ∷ zeros 120;
          value = Some (4 ∷ 0x41 ∷ []);
        } ∷ []))) ≡
        1 ∷ zeros 130 ++ 2 ∷ 0x64 ∷ zeros 123 ++ 0 ∷ 1 ∷ 1 ∷ zeros 255 ++ 0x64 ∷ 0 ∷ 1
        ∷ 0x6b ∷ zeros 120 ++ 0 ∷ 2
        ∷ 4 ∷ 0x41 ∷ zeros 3454 }
{}

/// Attributes stand behind the blocks of their file and before all paths behind it, also before those below it, in
/// the order of names. Another program worked this out.
pub fn order_of_attributes()
    ensures { pair_list (ruler_two 3 1)
        (write_line "write /d 0 " (zeros 300) ++ text ("set /d k 41" ∷ "set /d U -" ∷ [])
        ++ write_line "set /d K! " (zeros 255)
        ++ text ("make /d!" ∷ "make /e" ∷ "write /e/f 0 -" ∷ "set /e ~ 01" ∷ [])
        ++ codes "set /e/f "
        ++ replicate 32 0x6e ++ codes " 7879") ≡
        (key_of (codes "d"), 2 ∷ 0 ∷ 0 ∷ 1 ∷ 0x2c ∷ []) ∷ (block_key (codes "d") 1, zeros 256)
        ∷ (block_key (codes "d") 2, zeros 44)
        ∷ (key_of (0x64 ∷ 0 ∷ 1 ∷ 0x4b ∷ 0x21 ∷ []), 4 ∷ zeros 255)
        ∷ (key_of (0x64 ∷ 0 ∷ 1 ∷ 0x55 ∷ []), 4 ∷ [])
        ∷ (key_of (0x64 ∷ 0 ∷ 1 ∷ 0x6b ∷ []), 4 ∷ 0x41 ∷ [])
        ∷ (key_of (codes "d!"), 1 ∷ [])
        ∷ (key_of (codes "e"), 1 ∷ []) ∷ (key_of (0x65 ∷ 0 ∷ 1 ∷ 0x7e ∷ []), 4 ∷ 1 ∷ [])
        ∷ (key_of (0x65 ∷ 0 ∷ 0x66 ∷ []), 3 ∷ [])
        ∷ (key_of (0x65 ∷ 0 ∷ 0x66 ∷ 0 ∷ 1 ∷ replicate 32 0x6e), 4 ∷ 0x78 ∷ 0x79 ∷ []) ∷ [] }
{}

/// The longest paths whose field holds an attribute with a name of 1 byte and of 32, and what is one byte longer.
/// Names that attributes may have, and that they may not.
pub fn fields_of_attributes()
    ensures shortest_name { map (λ n. fits_attribute (replicate n 0x78 ∷ []) (codes "k"))
        (116 ∷ 117 ∷ 119 ∷ [])
        ≡ true ∷ false ∷ false ∷ [] }
    ensures longest_name { map (λ n. fits_attribute (replicate n 0x78 ∷ []) (replicate 32 0x6e))
        (1 ∷ 85 ∷ 86 ∷ [])
        ≡ true ∷ true ∷ false ∷ [] }
    ensures names { map (λ name. is_attribute_name name)
        (codes "k" ∷ replicate 32 0x7e ∷ replicate 33 0x7e ∷ [] ∷ codes "." ∷ codes ".."
        ∷ codes "a/b" ∷ (1 ∷ []) ∷ [])
        ≡
        true ∷ true ∷ false ∷ false ∷ false ∷ false ∷ false ∷ false ∷ [] }
{}

/// An attribute that is set, read, moved with its directory, listed, and removed with it.
pub fn attribute_of_a_directory()
    ensures { output (ruler_two 4 1)
        (text ("make /d" ∷ "set /d k 41" ∷ "get /d k" ∷ "rename /d /e" ∷ "attrs /e" ∷ "space"
        ∷ "remove /e" ∷ "space" ∷ [])) ≡
        text ("ok" ∷ "ok" ∷ "ok 41" ∷ "ok" ∷ "a k 1" ∷ "end" ∷ "space 1 4"
        ∷ "ok" ∷ "space 0 4" ∷ []) }
{}

/// Without its one attribute a directory is as it was made; so is one that is made again where one with an attribute
/// stood.
pub fn attribute_taken_away()
    ensures replies { output (ruler_two 4 1)
        (text ("make /d" ∷ "set /d k 41" ∷ "unset /d k" ∷ "unset /d k"
        ∷ "get /d k" ∷ "attrs /d" ∷ [])) ≡
        text ("ok" ∷ "ok" ∷ "ok" ∷ "no none" ∷ "no none" ∷ "end" ∷ []) }
    ensures tree { tree (ruler_two 4 1)
        (text ("make /d" ∷ "set /d k 41" ∷ "unset /d k" ∷ "unset /d k" ∷ []))
        ≡ tree (ruler_two 4 1) (text ("make /d" ∷ [])) }
    ensures again { tree (ruler_two 4 1)
        (text ("make /d" ∷ "set /d k 41" ∷ "remove /d" ∷ "make /d" ∷ []))
        ≡ tree (ruler_two 4 1) (text ("make /d" ∷ [])) }
{}

/// Attributes are listed in the order of their names, an empty one too, and one that is there gets other bytes. A
/// directory with attributes and no child is empty, and lists none.
pub fn listed_attributes()
    ensures { output (ruler_two 4 1)
        (text ("make /d" ∷ "set /d k 41" ∷ "set /d K -" ∷ "set /d k! 0102" ∷ "set /d k 43AAbb"
        ∷ "attrs /d" ∷ "get /d K"
        ∷ "get /d k" ∷ "list /d" ∷ "remove /d" ∷ "attrs /d" ∷ [])) ≡
        text ("ok" ∷ "ok" ∷ "ok" ∷ "ok" ∷ "ok" ∷ "a K 0" ∷ "a k 3" ∷ "a k! 2" ∷ "end"
        ∷ "ok -" ∷ "ok 43aabb" ∷ "end"
        ∷ "ok" ∷ "no missing" ∷ []) }
{}

/// A file keeps its attributes when it is written and cut, and a directory with a child and an attribute is not empty.
pub fn attributes_beside_contents()
    ensures file { output (ruler_two 4 1)
        (text ("write /f 0 01" ∷ "set /f k 41" ∷ "write /f 1 0203" ∷ "cut /f 1"
        ∷ "read /f 0 9" ∷ "attrs /f" ∷ [])) ≡
        text ("ok" ∷ "ok" ∷ "ok" ∷ "ok" ∷ "ok 01" ∷ "a k 1" ∷ "end" ∷ []) }
    ensures child { output (ruler_two 4 1)
        (text ("make /d" ∷ "set /d k 41" ∷ "make /d/c" ∷ "set /d/c k 42" ∷ "remove /d"
        ∷ "list /d" ∷ "get /d/c k"
        ∷ "prune /d" ∷ "space" ∷ [])) ≡
        text ("ok" ∷ "ok" ∷ "ok" ∷ "ok" ∷ "no notempty" ∷ "d c" ∷ "end" ∷ "ok 42"
        ∷ "ok" ∷ "space 0 4" ∷ []) }
{}

/// Version 1 has no attributes: each command on them is refused before anything else is looked at, but not before
/// its line is read.
pub fn version_without_attributes()
    ensures version { output (ruler 4 1)
        (text ("set / k 41" ∷ "set /x k 41" ∷ "unset /x k" ∷ "get / k" ∷ "attrs /x" ∷ [])) ≡
        text ("no version" ∷ "no version" ∷ "no version" ∷ "no version" ∷ "no version" ∷ []) }
    ensures line { output (ruler 4 1)
        (text ("set /d . 41" ∷ []) ++ codes "get /" ++ replicate 120 0x78 ++ codes " k")
        ≡ text ("no syntax" ∷ "no path" ∷ []) }
    ensures fits { Fits ((codes "d" ∷ [], directory_with ((codes "k", 0x41 ∷ []) ∷ [])) ∷ [])
        (ruler 1 1) → ⊥ }
{}

/// Where two refusals of a command on attributes hold, the earlier one is answered.
pub fn first_refusals_on_attributes()
    ensures set { output (ruler_two 4 1)
        (write_line "set / k " (zeros 256) ++ write_line "set /x k " (zeros 256)
        ++ text ("make /d" ∷ []) ++ write_line "set /d k " (zeros 256)
        ++ write_line "set /d k " (zeros 255)) ≡
        text ("no root" ∷ "no missing" ∷ "ok" ∷ "no big" ∷ "ok" ∷ []) }
    ensures field { output (ruler_two 4 1)
        (codes "make /" ++ replicate 117 0x78 ++ 10 ∷ codes "set /" ++ replicate 117 0x78
        ++ write_line " k " (zeros 256) ++ codes "set /" ++ replicate 117 0x78
        ++ codes " k 41" ++ 10 ∷ codes "get /"
        ++ replicate 117 0x78 ++ codes " k") ≡
        text ("ok" ∷ "no big" ∷ "no path" ∷ "no none" ∷ []) }
    ensures longest { output (ruler_two 4 1)
        (codes "make /" ++ replicate 116 0x78 ++ 10 ∷ codes "set /"
        ++ replicate 116 0x78 ++ codes " k 41")
        ≡ text ("ok" ∷ "ok" ∷ []) }
    ensures others { output (ruler_two 4 1)
        (text ("unset / k" ∷ "get / k" ∷ "attrs /" ∷ "unset /x k" ∷ "get /x k"
        ∷ "attrs /x" ∷ "make /d"
        ∷ "unset /d k" ∷ "get /d k" ∷ [])) ≡
        text ("no root" ∷ "no root" ∷ "no root" ∷ "no missing" ∷ "no missing" ∷ "no missing" ∷ "ok"
        ∷ "no none" ∷ "no none" ∷ []) }
    ensures full { output (ruler_two 1 1)
        (text ("make /a" ∷ "set /a b -" ∷ "set /a c -" ∷ "set /a d -" ∷ "set /a e -"
        ∷ "set /a f -" ∷ "set /a g -"
        ∷ "set /a h -" ∷ "set /a i -" ∷ "set /a j -" ∷ "set /a k -" ∷ "set /a j 41"
        ∷ "unset /a b" ∷ "set /a k -" ∷ []))
        ≡
        text ("ok" ∷ "ok" ∷ "ok" ∷ "ok" ∷ "ok" ∷ "ok" ∷ "ok" ∷ "ok" ∷ "ok" ∷ "ok" ∷ "no full 2 1"
        ∷ "ok" ∷ "ok" ∷ "ok" ∷ []) }
{}

/// A rename is refused where the field of an attribute that moves along would be too long, though that of its path
/// is not.
pub fn outgrown_attributes()
    ensures own { output (ruler_two 4 1)
        (text ("make /d" ∷ "set /d k 41" ∷ []) ++ codes "rename /d /"
        ++ replicate 117 0x78 ++ 10 ∷ codes "rename /d /" ++ replicate 116 0x78) ≡
        text ("ok" ∷ "ok" ∷ "no path" ∷ "ok" ∷ []) }
    ensures below { output (ruler_two 4 1)
        (text ("make /d" ∷ "make /d/c" ∷ "set /d/c k 41" ∷ []) ++ codes "rename /d /"
        ++ replicate 115 0x78 ++ 10 ∷ codes "rename /d /" ++ replicate 114 0x78) ≡
        text ("ok" ∷ "ok" ∷ "ok" ∷ "no path" ∷ "ok" ∷ []) }
    ensures unset { output (ruler_two 4 1)
        (text ("make /d" ∷ "set /d k 41" ∷ "unset /d k" ∷ []) ++ codes "rename /d /"
        ++ replicate 119 0x78) ≡
        text ("ok" ∷ "ok" ∷ "ok" ∷ "ok" ∷ []) }
{}

/// Lines that nearly ask for an attribute.
pub fn lines_on_attributes()
    ensures { map (λ row. parse (codes row))
        ("set /d k" ∷ "set /d  41" ∷ "set /d . 41" ∷ "set /d .. 41" ∷ "set /d a/b 41"
        ∷ "set /d k 4" ∷ "set /d k 41 42"
        ∷ "set d k 41" ∷ "Set /d k 41"
        ∷ "unset /d" ∷ "unset /d k 41" ∷ "unset /d " ∷ "get /d" ∷ "get /d .." ∷ "get /d k k"
        ∷ "attrs" ∷ "attrs /d k"
        ∷ "attrs d" ∷ "attr /d"
        ∷ "get /d nnnnnnnnnnnnnnnnnnnnnnnnnnnnnnnnn" ∷ [])
        ≡ replicate 20 (Err refusals.Syntax) }
{}

/// Attributes that a path of a tree has, and some that none has: out of order, twice, one of 256 bytes, one with a
/// name of 33 bytes, and one whose field is too long.
pub fn attributes_in_trees()
    ensures tree { IsTree
        ((
          codes "d" ∷ [],
          directory_with ((codes "K", []) ∷ (codes "k", 0xff ∷ [])
              ∷ (replicate 32 0x6e, zeros 255) ∷ []),
        ) ∷ []) }
    ensures out_of_order { IsTree
        ((codes "d" ∷ [], directory_with ((codes "k", []) ∷ (codes "K", []) ∷ [])) ∷ []) → ⊥ }
    ensures twice { IsTree
        ((codes "d" ∷ [], directory_with ((codes "k", []) ∷ (codes "k", []) ∷ [])) ∷ []) → ⊥ }
    ensures long { IsTree ((codes "d" ∷ [], directory_with ((codes "k", zeros 256) ∷ [])) ∷ [])
        → ⊥ }
    ensures long_name { IsTree ((codes "d" ∷ [], directory_with ((replicate 33 0x6e, []) ∷ []))
        ∷ []) → ⊥ }
    ensures long_field { IsTree ((replicate 117 0x78 ∷ [], directory_with ((codes "k", []) ∷ []))
        ∷ []) → ⊥ }
{}
