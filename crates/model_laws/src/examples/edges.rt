//! Edges of the ranges: the empty and the full, the longest that passes and the shortest that does not,
//! and lines for which two refusals hold at once.
#![tactic(auto, unfolding(crate::specs::Compute::everything))]

ghost use Rattle.std.specs.Prelude.{◌≡◌, ℕ, List, [], ◌∷◌, ◌++◌, map, codes, length, replicate, slice_index, Some};
ghost use Rattle.std.specs.Prelude.{None, Ok, Err};
ghost use Rattle.store_model.specs.declared.draw_kind.DrawKind.TheVariants.{Sha256};
ghost use Rattle.store_model.specs.declared.version.Version.TheVariants.{One};
ghost use Rattle.store_model.specs.declared.refusal.Refusal.TheVariants as refusals;
ghost use Rattle.store_model.specs.Lists.{zeros, numbers_below, numbers_from};
ghost use Rattle.store_model.specs.Parameters.{IsParameters};
ghost use Rattle.store_model.specs.Trees.{empty_tree, IsTree};
ghost use Rattle.store_model.specs.Trees.Node.{Directory, File};
ghost use Rattle.store_model.specs.Pairs.{pairs};
ghost use Rattle.store_model.specs.Labels.Lead.{Start, Leader};
ghost use Rattle.store_model.specs.Draws.{Draw, draw_of, sha256_start, sha256_level};
ghost use Rattle.store_model.specs.Pages.{IsPage, pages_of_pairs};
ghost use Rattle.store_model.specs.Placement.{IsOrderedTable};
ghost use Rattle.store_model.specs.Images.{Represents, header, slot_bytes, layout, recovered_slot, recovered};
ghost use Rattle.store_model.specs.Commands.Command.{Make, Write};
ghost use Rattle.store_model.specs.Commands.Reply.{Refused};
ghost use Rattle.store_model.specs.Grammar.{parse};
ghost use Rattle.store_model.specs.Steps.{refusal_of};
ghost use Rattle.store_model.specs.Scripts.{answer, lines};
ghost use Rattle.store_model.specs.Words.{request_of};
ghost use Rattle.store_model.specs.Words.Request.{Format, Big};
ghost use Rattle.model_laws.specs.Examples.{ruler, text, output, tree, table, page_list, bare, start_label, led_label};
ghost use Rattle.model_laws.specs.Examples.{page, directory_cell, key_cell, key_of};

/// The empty tree has no page, and an empty file has one pair.
pub fn empty_trees_and_files()
    ensures table { table (ruler 3 2) [] ≡ None ∷ None ∷ None ∷ [] }
    ensures represented { IsParameters (ruler 1 1)
        → Represents (header (ruler 1 1) ++ zeros 16384) empty_tree (ruler 1 1) }
    ensures file { pairs ((codes "f" ∷ [], bare (File [])) ∷ []) (ruler 1 1)
        ≡ (key_of (codes "f"), 2 ∷ 0 ∷ 0 ∷ 0 ∷ 0 ∷ []) ∷ [] }
{}

/// Entries that are a tree, and entries that are none: without their parent, twice, out of order, and with
/// a path one byte too long.
pub fn entries_of_trees()
    ensures tree { IsTree ((codes "a" ∷ [], bare Directory)
        ∷ (codes "a" ∷ codes "b" ∷ [], bare Directory)
        ∷ (replicate 119 0x61 ∷ [], bare Directory) ∷ []) }
    ensures lost_parent { IsTree ((codes "a" ∷ codes "b" ∷ [], bare Directory) ∷ []) → ⊥ }
    ensures twice { IsTree ((codes "a" ∷ [], bare Directory)
        ∷ (codes "a" ∷ [], bare Directory) ∷ []) → ⊥ }
    ensures out_of_order { IsTree ((codes "b" ∷ [], bare Directory)
        ∷ (codes "a" ∷ [], bare Directory) ∷ []) → ⊥ }
    ensures too_long { IsTree ((replicate 120 0x61 ∷ [], bare Directory) ∷ []) → ⊥ }
{}

/// A file of 256 bytes has one block and one of 257 has two, numbered from 1. Keys are in the order of
/// paths name by name.
pub fn blocks_and_keys()
    ensures full_block { pairs ((codes "f" ∷ [], bare (File (replicate 256 7))) ∷ []) (ruler 1 1) ≡
        (key_of (codes "f"), 2 ∷ 0 ∷ 0 ∷ 1 ∷ 0 ∷ [])
        ∷ (0x66 ∷ zeros 122 ++ 1 ∷ [], replicate 256 7) ∷ [] }
    ensures one_byte_more { pairs ((codes "f" ∷ [], bare (File (replicate 256 7 ++ 8 ∷ []))) ∷ [])
        (ruler 1 1) ≡
        (key_of (codes "f"), 2 ∷ 0 ∷ 0 ∷ 1 ∷ 1 ∷ []) ∷ (0x66 ∷ zeros 122 ++ 1 ∷ [], replicate 256 7)
        ∷ (0x66 ∷ zeros 122 ++ 2 ∷ [], 8 ∷ []) ∷ [] }
    ensures order { map (λ pair. pair.0)
        (pairs (tree (ruler 9 1)
        (text ("make /b" ∷ "make /B" ∷ "make /a.b" ∷ "make /a" ∷ "write /a/z 0 00"
        ∷ "make /ab" ∷ []))) (ruler 9 1)) ≡
        key_of (codes "B") ∷ key_of (codes "a") ∷ key_of (0x61 ∷ 0 ∷ 0x7a ∷ [])
        ∷ key_of (0x61 ∷ 0 ∷ 0x7a ∷ zeros 120 ++ 1 ∷ [])
        ∷ key_of (codes "a.b") ∷ key_of (codes "ab") ∷ key_of (codes "b") ∷ [] }
{}

/// A group led by a key is paged from that key on, in runs of 10 cells and above level 0 of 31; and no
/// page is without a cell or holds more. A table has as many slots as the draw says, and pages in them.
pub fn runs_of_groups()
    ensures eleven { pages_of_pairs (draw_of (ruler 9 2))
        (map (λ n. (key_of (n ∷ []), 1 ∷ [])) (numbers_from 0x54 12))
        ≡
        page (start_label 0 0) (directory_cell (codes "T") ∷ [])
        ∷ page (led_label 0 (codes "U")) (map (λ n. directory_cell (n ∷ [])) (numbers_from 0x55 10))
        ∷ page (record { level = 0; lead = Leader (key_of (codes "U")); index = 1 })
        (directory_cell (codes "_") ∷ [])
        ∷ page (start_label 1 0) (key_cell (codes "U") ∷ []) ∷ [] }
    ensures thirty_two { pages_of_pairs (record {
      slots = 99;
      height = 2;
      start = λ l. 0;
      level = λ k. 1;
    })
        (map (λ n. (key_of (n ∷ []), 1 ∷ [])) (numbers_from 1 32)) ≡
        map (λ n. page (led_label 0 (n ∷ [])) (directory_cell (n ∷ []) ∷ [])) (numbers_from 1 32)
        ++ page (start_label 1 0) (map (λ n. key_cell (n ∷ [])) (numbers_from 1 31))
        ∷ page (start_label 1 1) (key_cell (32 ∷ []) ∷ []) ∷ [] }
    ensures three_levels { pages_of_pairs (record {
      slots = 9;
      height = 3;
      start = λ l. 0;
      level = λ k. slice_index k 1;
    })
        (map (λ k. (key_of k, 1 ∷ []))
        ((1 ∷ 0 ∷ []) ∷ (2 ∷ 1 ∷ []) ∷ (3 ∷ 2 ∷ []) ∷ (4 ∷ 0 ∷ []) ∷ (5 ∷ 1 ∷ []) ∷ []))
        ≡
        page (start_label 0 0) (directory_cell (1 ∷ 0 ∷ []) ∷ [])
        ∷ page (led_label 0 (2 ∷ 1 ∷ [])) (directory_cell (2 ∷ 1 ∷ []) ∷ [])
        ∷ page (led_label 0 (3 ∷ 2 ∷ []))
        (directory_cell (3 ∷ 2 ∷ []) ∷ directory_cell (4 ∷ 0 ∷ []) ∷ [])
        ∷ page (led_label 0 (5 ∷ 1 ∷ [])) (directory_cell (5 ∷ 1 ∷ []) ∷ [])
        ∷ page (start_label 1 0) (key_cell (2 ∷ 1 ∷ []) ∷ [])
        ∷ page (led_label 1 (3 ∷ 2 ∷ [])) (key_cell (3 ∷ 2 ∷ []) ∷ key_cell (5 ∷ 1 ∷ []) ∷ [])
        ∷ page (start_label 2 0) (key_cell (3 ∷ 2 ∷ []) ∷ []) ∷ [] }
    ensures nine_letters_in_eight_levels { page_list (ruler 8 8) (text ("make /UUUUUUUUU" ∷ [])) ≡
        page (led_label 0 (codes "UUUUUUUUU")) (directory_cell (codes "UUUUUUUUU") ∷ [])
        ∷ map (λ l. page (led_label l (codes "UUUUUUUUU")) (key_cell (codes "UUUUUUUUU") ∷ []))
        (numbers_from 1 6)
        ++ page (start_label 7 0) (key_cell (codes "UUUUUUUUU") ∷ []) ∷ [] }
    ensures no_cell { IsPage (page (start_label 0 0) []) → ⊥ }
    ensures too_many_cells { IsPage
        (page (start_label 0 0) (map (λ n. directory_cell (n ∷ [])) (codes "abcdefghijk")))
        → ⊥ }
    ensures no_page_in_a_table { IsOrderedTable (draw_of (ruler 1 1))
        (Some (page (start_label 0 0) []) ∷ []) → ⊥ }
    ensures table_too_long { IsOrderedTable (draw_of (ruler 1 1)) (None ∷ None ∷ []) → ⊥ }
{}

/// Starts and levels by SHA-256. The digests were computed by another program.
pub fn draws_by_digest()
    ensures start { sha256_start (numbers_below 32) 16384 (record {
      level = 1;
      lead = Leader (key_of (codes "a"));
      index = 5;
    }) ≡ 15002 }
    ensures levels { map (λ name. sha256_level (numbers_below 32) 8 (key_of (codes name)))
        ("a" ∷ "L" ∷ "i" ∷ [])
        ≡ 0 ∷ 1 ∷ 2 ∷ [] }
{}

/// A marked slot takes its shadow where the gate is set, by any byte other than 0, and only there.
pub fn recovery_of_one_slot()
    ensures set { recovered 1 (header (ruler 1 1) ++ 0x7f ∷ zeros 4095 ++ 0x80 ∷ zeros 4095
        ++ slot_bytes (Some (page (start_label 0 0) (directory_cell (codes "a") ∷ [])))
        ++ zeros 4096) ≡
        layout (tree (ruler 1 1) (text ("make /a" ∷ []))) (ruler 1 1) }
    ensures not_set { recovered_slot 1
        (zeros 4096 ++ 0 ∷ replicate 4095 7 ++ 1 ∷ zeros 4095 ++ replicate 4096 5
        ++ replicate 4096 6) 0 ≡ replicate 4096 6 }
    ensures not_marked { recovered_slot 1
        (zeros 4096 ++ 1 ∷ zeros 4095 ++ 0 ∷ 1 ∷ zeros 4094 ++ replicate 4096 5
        ++ replicate 4096 6) 0 ≡ replicate 4096 6 }
{}

/// Lines that nearly say something; the longest name and the longest line, and what is one byte longer;
/// and the lines of a script.
pub fn fields_of_lines()
    ensures syntax { map (λ row. parse (codes row))
        (" " ∷ "make" ∷ " make /a" ∷ "make  /a" ∷ "space " ∷ "space /" ∷ "Space" ∷ "rename /a"
        ∷ "write /f 0" ∷ "write /f 0 41 41"
        ∷ "make //" ∷ "make //a" ∷ "make /a//b" ∷ "make /." ∷ "make /a/../b" ∷ "cut /f "
        ∷ "cut /f 00" ∷ "cut /f 01"
        ∷ "cut /f +1" ∷ "cut /f 1:" ∷ "cut /f 1/"
        ∷ "write /f 0 " ∷ "write /f 0 4" ∷ "write /f 0 --" ∷ "write /f 0 41-1" ∷ "write /f 0 4g"
        ∷ "write /f 0 @1" ∷ [])
        ≡ replicate 27 (Err refusals.Syntax) }
    ensures other_bytes { map parse ((codes "space" ++ 13 ∷ []) ∷ (codes "make /a" ++ 13 ∷ [])
        ∷ (codes "make /" ++ 0x7f ∷ []) ∷ (codes "make /" ++ 0 ∷ [])
        ∷ (codes "make" ++ 9 ∷ codes "/a") ∷ [])
        ≡ replicate 5 (Err refusals.Syntax) }
    ensures names { parse (codes "make /.../.a/!~")
        ≡ Ok (Make (codes "..." ∷ codes ".a" ∷ codes "!~" ∷ [])) }
    ensures digits { parse (codes "write /f 4294967295 aBFf09")
        ≡ Ok (Write (codes "f" ∷ []) 4294967295 (0xab ∷ 0xff ∷ 9 ∷ [])) }
    ensures longest_path { parse (codes "make /" ++ replicate 119 0x78)
        ≡ Ok (Make (replicate 119 0x78 ∷ [])) }
    ensures long_paths { map parse ((codes "rename /a /" ++ replicate 120 0x78)
        ∷ (codes "rename /" ++ replicate 120 0x78 ++ codes " /a")
        ∷ (codes "write /" ++ replicate 120 0x78 ++ codes " 0 4") ∷ []) ≡
        Err refusals.Path ∷ Err refusals.Path ∷ Err refusals.Syntax ∷ [] }
    ensures longest_line { (answer empty_tree
        (codes "make /" ++ replicate 8186 0x61) (ruler 4 1)).reply
        ≡ Refused refusals.Path }
    ensures line_too_long { (answer empty_tree
        (codes "make /" ++ replicate 8187 0x61) (ruler 4 1)).reply
        ≡ Refused refusals.Long }
    ensures cut_at_line_feeds { lines (10 ∷ codes "a" ++ 10 ∷ 10 ∷ codes "b" ++ 13 ∷ 10 ∷ 13 ∷ [])
        ≡ codes "a" ∷ (codes "b" ++ 13 ∷ []) ∷ (13 ∷ []) ∷ [] }
{}

/// Where two refusals hold, the earlier one is answered.
pub fn first_refusals()
    ensures make_remove_prune { output (ruler 1 1)
        (text ("make /" ∷ "remove /" ∷ "prune /" ∷ "remove /x" ∷ "prune /x" ∷ "make /x/y"
        ∷ "make /a" ∷ "make /a/b"
        ∷ "make /ab" ∷ "remove /" ∷ "remove /a" ∷ "prune /a" ∷ "list /" ∷ [])) ≡
        text ("no root" ∷ "no root" ∷ "no root" ∷ "no missing" ∷ "no missing"
        ∷ "no parent" ∷ "ok" ∷ "ok" ∷ "ok"
        ∷ "no root" ∷ "no notempty" ∷ "ok" ∷ "d ab" ∷ "end" ∷ []) }
    ensures write { output (ruler 2 2)
        (text ("write / 9 -" ∷ "write /x/y 9 -" ∷ "make /Ua" ∷ "write /Ua 1 -"
        ∷ "write /UU 4294967295 00"
        ∷ "write /UU 1 00" ∷ "write /UU 0 00" ∷ [])) ≡
        text ("no kind" ∷ "no parent" ∷ "ok" ∷ "no kind" ∷ "no gap" ∷ "no gap"
        ∷ "no full 3 2" ∷ []) }
    ensures cut_read_list { output (ruler 2 1)
        (text ("cut / 1" ∷ "cut /x 1" ∷ "read / 1 4097" ∷ "read /x 1 4097"
        ∷ "write /f 0 00" ∷ "read /f 2 4097"
        ∷ "read /f 1 4097" ∷ "read /f 1 4096" ∷ "list /f" ∷ "list /f/x" ∷ [])) ≡
        text ("no kind" ∷ "no missing" ∷ "no kind" ∷ "no missing" ∷ "ok"
        ∷ "no gap" ∷ "no big" ∷ "ok -"
        ∷ "no kind" ∷ "no missing" ∷ []) }
    ensures rename { output (ruler 2 1)
        (text ("rename /x /" ∷ "rename / /x" ∷ "rename /x /x/y" ∷ "rename /x /q/y"
        ∷ "make /a" ∷ "make /a/b"
        ∷ "rename /x /a" ∷ "rename /a /a/b" ∷ "rename /a /a/y/z" ∷ "rename /a /q/y"
        ∷ "write /f 0 -" ∷ "rename /a /f/y"
        ∷ "rename /f /f/g" ∷ "rename /a /f" ∷ [])) ≡
        text ("no root" ∷ "no root" ∷ "no missing" ∷ "no missing" ∷ "ok" ∷ "ok"
        ∷ "no missing" ∷ "no inside"
        ∷ "no inside" ∷ "no parent" ∷ "ok" ∷ "no parent" ∷ "no inside" ∷ "no exists" ∷ []) }
    ensures rename_of_a_deep_path { output (ruler 1 1)
        (text ("make /d" ∷ "make /dd" ∷ []) ++ codes "make /d/" ++ replicate 117 0x78 ++ 10
        ∷ text ("rename /d /dd" ∷ "rename /d /q/e" ∷ "rename /d /ee" ∷ [])) ≡
        text ("ok" ∷ "ok" ∷ "ok" ∷ "no exists" ∷ "no parent" ∷ "no path" ∷ []) }
{}

/// A file of the greatest length takes no further byte; its last byte can be written over.
pub fn full_file()
    ensures one_byte_more { (old : List ℕ) → length old ≡ 16777216
        → refusal_of ((codes "f" ∷ [], bare (File old)) ∷ [])
        (Write (codes "f" ∷ []) 16777216 (7 ∷ []))
        ≡ Some refusals.Big }
    ensures last_byte { (old : List ℕ) → length old ≡ 16777216
        → refusal_of ((codes "f" ∷ [], bare (File old)) ∷ [])
        (Write (codes "f" ∷ []) 16777215 (7 ∷ [])) ≡ None }
    ensures no_bytes { (old : List ℕ) → length old ≡ 16777216
        → refusal_of ((codes "f" ∷ [], bare (File old)) ∷ []) (Write (codes "f" ∷ []) 16777216 [])
        ≡ None }
    ensures past_the_end { (old : List ℕ) → length old ≡ 16777216
        → refusal_of ((codes "f" ∷ [], bare (File old)) ∷ [])
        (Write (codes "f" ∷ []) 16777217 (7 ∷ []))
        ≡ Some refusals.Gap }
{}

/// Command lines at the ends of their ranges and past them.
pub fn ranges_of_words()
    ensures largest { request_of (codes "format" ∷ codes "65536" ∷ codes "8" ∷ codes "sha256"
        ∷ (replicate 32 0x46 ++ replicate 32 0x66) ∷ []) ≡
        Some (Format (record {
          slots = 65536;
          height = 8;
          kind = Sha256;
          seed = replicate 32 255;
          version = One;
        })) }
    ensures past_slots { map (λ slots.
        request_of (codes "format" ∷ codes slots ∷ codes "1" ∷ codes "ruler"
        ∷ replicate 64 0x30 ∷ []))
        ("01" ∷ "65537" ∷ []) ≡ None ∷ None ∷ [] }
    ensures past_seed { map (λ digits.
        request_of (codes "format" ∷ codes "1" ∷ codes "1" ∷ codes "ruler"
        ∷ replicate digits 0x30 ∷ []))
        (62 ∷ 63 ∷ 65 ∷ 66 ∷ []) ≡ replicate 4 None }
    ensures big { request_of (codes "big" ∷ codes "4294967295" ∷ codes "1000000" ∷ [])
        ≡ Some (Big 4294967295 1000000) }
    ensures past_big { map (λ count. request_of (codes "big" ∷ codes "0" ∷ codes count ∷ []))
        ("0" ∷ "1000001" ∷ "1 " ∷ []) ≡ replicate 3 None }
    ensures other_words { map request_of (([] ∷ []) ∷ (codes "--help" ∷ []) ∷ (codes "RUN" ∷ [])
        ∷ (codes "big" ∷ codes "1" ∷ []) ∷ (codes "big" ∷ codes "4294967296" ∷ codes "1" ∷ []) ∷ [])
        ≡ replicate 5 None }
{}
