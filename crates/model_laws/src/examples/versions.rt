//! Version 2 of the format: short files in their first pairs, and headers to which the journal gives that version.
#![tactic(auto, unfolding(crate::specs::Compute::everything))]

ghost use Rattle.std.specs.Prelude.{◌≡◌, ℕ, List, [], ◌∷◌, ◌++◌, map, length, take, drop, replicate, slice_set, Some};
ghost use Rattle.std.specs.Prelude.{None, codes};
ghost use Rattle.store_model.specs.Lists.{zeros};
ghost use Rattle.store_model.specs.Parameters.{mark_at};
ghost use Rattle.store_model.specs.Trees.{empty_tree};
ghost use Rattle.store_model.specs.Trees.Node.{File};
ghost use Rattle.store_model.specs.Pairs.{pairs};
ghost use Rattle.store_model.specs.Images.{header, slot_bytes, layout, viewed_header, recovered};
ghost use Rattle.model_laws.specs.Examples.{ruler, ruler_two, text, bare, write_line, output, tree, pair_list, table};
ghost use Rattle.model_laws.specs.Examples.{key_of, block_key, start_label, page};

/// The header of version 2 differs in byte 14 alone.
pub fn header_of_version_two()
    ensures front { take 16 (header (ruler_two 1 1)) ≡
        0x48 ∷ 0x53 ∷ 0x54 ∷ 0x4f ∷ 0x52 ∷ 0x45 ∷ 0x30 ∷ 0x31 ∷ 0 ∷ 0 ∷ 0 ∷ 1 ∷ 1 ∷ 0 ∷ 2 ∷ 0 ∷ [] }
    ensures behind { drop 16 (header (ruler_two 1 1)) ≡ zeros 4080 }
{}

/// Images of one slot, whose version's mark is byte 1 of the marks: where it is not 0 and the flag is set, the header
/// is of version 2, whatever its byte 14 is. Another mark does not say so, nor does a mark where the flag is clear,
/// and no other byte of the header is changed.
pub fn headers_by_the_version_mark()
    ensures raised { viewed_header 1 (header (ruler 1 1) ++ 1 ∷ zeros 4095 ++ 0 ∷ 1 ∷ zeros 12286)
        ≡ header (ruler_two 1 1) }
    ensures any_version { viewed_header 1
        (slice_set (header (ruler 1 1)) 14 0x7f ++ 1 ∷ zeros 4095 ++ 0 ∷ 1
        ∷ zeros 12286) ≡ header (ruler_two 1 1) }
    ensures any_bytes { viewed_header 1
        (slice_set (header (ruler 1 1)) 14 0 ++ 0x80 ∷ zeros 4095 ++ 0 ∷ 0xff
        ∷ zeros 12286) ≡ header (ruler_two 1 1) }
    ensures already { viewed_header 1
        (header (ruler_two 1 1) ++ 1 ∷ zeros 4095 ++ 0 ∷ 1 ∷ zeros 12286)
        ≡ header (ruler_two 1 1) }
    ensures not_raised { viewed_header 1
        (slice_set (header (ruler 1 1)) 14 0x7f ++ zeros 4096 ++ 0 ∷ 1 ∷ zeros 12286)
        ≡ slice_set (header (ruler 1 1)) 14 0x7f }
    ensures clear { viewed_header 1 (header (ruler 1 1) ++ zeros 4096 ++ 0 ∷ 1 ∷ zeros 12286)
        ≡ header (ruler 1 1) }
    ensures mark_behind { viewed_header 1
        (header (ruler 1 1) ++ 1 ∷ zeros 4095 ++ 0 ∷ 0 ∷ 1 ∷ zeros 12285)
        ≡ header (ruler 1 1) }
    ensures mark_before { viewed_header 1 (header (ruler 1 1) ++ 1 ∷ zeros 4095 ++ 1 ∷ zeros 12287)
        ≡ header (ruler 1 1) }
    ensures other_byte { viewed_header 1
        (slice_set (header (ruler 1 1)) 15 1 ++ 1 ∷ zeros 4095 ++ 0 ∷ 1 ∷ zeros 12286)
        ≡ slice_set (header (ruler_two 1 1)) 15 1 }
{}

/// The image of the empty tree under version 2, and what recovery makes of an image whose journal leads to it, whatever
/// byte 14 is.
pub fn empty_images_of_version_two()
    ensures layout { header (ruler_two 1 1) ++ zeros 16384 ≡ layout empty_tree (ruler_two 1 1) }
    ensures recovered_any { recovered 1
        (slice_set (header (ruler 1 1)) 14 0x7f ++ 1 ∷ zeros 4095 ++ 0 ∷ 1
        ∷ zeros 12286) ≡ layout empty_tree (ruler_two 1 1) }
    ensures recovered_one { recovered 1
        (header (ruler 1 1) ++ 1 ∷ zeros 4095 ++ 0 ∷ 1 ∷ zeros 12286)
        ≡ layout empty_tree (ruler_two 1 1) }
    ensures recovered_high { recovered 1
        (slice_set (header (ruler 1 1)) 14 0 ++ 0x80 ∷ zeros 4095 ++ 0 ∷ 0xff
        ∷ zeros 12286) ≡ layout empty_tree (ruler_two 1 1) }
    ensures unmarked { recovered 1 (header (ruler 1 1) ++ 1 ∷ zeros 4095 ++ zeros 12288)
        ≡ layout empty_tree (ruler 1 1) }
{}

/// The version's mark is the one behind the last slot's, also where it begins a block.
pub fn version_marks()
    ensures { map mark_at (1 ∷ 4095 ∷ 4096 ∷ 65536 ∷ []) ≡ 8193 ∷ 12287 ∷ 12288 ∷ 73728 ∷ [] }
{}

/// An image of the file `/f` of one byte, with the slot of version 2 in the journal: recovery leaves it in version 2
/// where the version's mark and the flag are set, and as it was where the flag is clear.
pub fn recovery_to_version_two()
    ensures raised { recovered 1 (header (ruler 1 1) ++ 1 ∷ zeros 4095 ++ 1 ∷ 1 ∷ zeros 4094
        ++ slot_bytes (Some (page (start_label 0 0) (record {
          key = key_of (codes "f");
          value = Some (3 ∷ 0x41 ∷ []);
        } ∷ [])))
        ++ slot_bytes (Some (page (start_label 0 0) (record {
          key = key_of (codes "f");
          value = Some (2 ∷ 0 ∷ 0 ∷ 0 ∷ 1 ∷ []);
        } ∷ record {
          key = block_key (codes "f") 1;
          value = Some (0x41 ∷ []);
        } ∷ [])))) ≡
        layout (tree (ruler_two 1 1) (text ("write /f 0 41" ∷ []))) (ruler_two 1 1) }
    ensures not_raised { recovered 1 (header (ruler 1 1) ++ zeros 4096 ++ 1 ∷ 1 ∷ zeros 4094
        ++ slot_bytes (Some (page (start_label 0 0) (record {
          key = key_of (codes "f");
          value = Some (3 ∷ 0x41 ∷ []);
        } ∷ [])))
        ++ slot_bytes (Some (page (start_label 0 0) (record {
          key = key_of (codes "f");
          value = Some (2 ∷ 0 ∷ 0 ∷ 0 ∷ 1 ∷ []);
        } ∷ record {
          key = block_key (codes "f") 1;
          value = Some (0x41 ∷ []);
        } ∷ [])))) ≡
        layout (tree (ruler 1 1) (text ("write /f 0 41" ∷ []))) (ruler 1 1) }
{}

/// How many pairs a file of 0, 1, 200, 201, 256 and 257 bytes has under each version.
pub fn pairs_of_short_and_long_files()
    ensures one { map (λ n.
        length (pairs ((codes "f" ∷ [], bare (File (replicate n 7))) ∷ []) (ruler 1 1)))
        (0 ∷ 1 ∷ 200 ∷ 201 ∷ 256 ∷ 257 ∷ []) ≡ 1 ∷ 2 ∷ 2 ∷ 2 ∷ 2 ∷ 3 ∷ [] }
    ensures two { map (λ n.
        length (pairs ((codes "f" ∷ [], bare (File (replicate n 7))) ∷ []) (ruler_two 1 1)))
        (0 ∷ 1 ∷ 200 ∷ 201 ∷ 256 ∷ 257 ∷ []) ≡ 1 ∷ 1 ∷ 1 ∷ 2 ∷ 2 ∷ 3 ∷ [] }
{}

/// A file that grows past 200 bytes, is cut back, grows in its middle and is cut to nothing, beside one of whole blocks
/// that is cut to 200 bytes.
pub fn files_about_the_limit()
    ensures below { pair_list (ruler_two 4 1) (write_line "write /f 0 " (replicate 199 0x41))
        ≡ (key_of (codes "f"), 3 ∷ replicate 199 0x41) ∷ [] }
    ensures at_limit { pair_list (ruler_two 4 1)
        (write_line "write /f 0 " (replicate 199 0x41) ++ text ("write /f 199 41" ∷ []))
        ≡ (key_of (codes "f"), 3 ∷ replicate 200 0x41) ∷ [] }
    ensures past { pair_list (ruler_two 4 1)
        (write_line "write /f 0 " (replicate 200 0x41) ++ text ("write /f 200 00" ∷ [])) ≡
        (key_of (codes "f"), 2 ∷ 0 ∷ 0 ∷ 0 ∷ 0xc9 ∷ [])
        ∷ (block_key (codes "f") 1, replicate 200 0x41 ++ 0 ∷ []) ∷ [] }
    ensures cut_back { pair_list (ruler_two 4 1)
        (write_line "write /f 0 " (replicate 200 0x41)
        ++ text ("write /f 200 00" ∷ "cut /f 200" ∷ "write /f 200 -" ∷ []))
        ≡ (key_of (codes "f"), 3 ∷ replicate 200 0x41) ∷ [] }
    ensures middle { pair_list (ruler_two 4 1)
        (write_line "write /f 0 " (replicate 200 0x41)
        ++ write_line "write /f 100 " (replicate 101 0x42)) ≡
        (key_of (codes "f"), 2 ∷ 0 ∷ 0 ∷ 0 ∷ 0xc9 ∷ [])
        ∷ (block_key (codes "f") 1, replicate 100 0x41 ++ replicate 101 0x42) ∷ [] }
    ensures same_length { pair_list (ruler_two 4 1) (text ("write /f 0 41" ∷ "write /f 0 42" ∷ []))
        ≡ (key_of (codes "f"), 3 ∷ 0x42 ∷ []) ∷ [] }
    ensures emptied { pair_list (ruler_two 4 1)
        (write_line "write /f 0 " (replicate 201 0x41) ++ text ("cut /f 0" ∷ []))
        ≡ (key_of (codes "f"), 3 ∷ []) ∷ [] }
    ensures blocks { pair_list (ruler_two 4 1)
        (write_line "write /g 0 " (replicate 256 0x43) ++ text ("write /g 256 44" ∷ [])) ≡
        (key_of (codes "g"), 2 ∷ 0 ∷ 0 ∷ 1 ∷ 1 ∷ []) ∷ (block_key (codes "g") 1, replicate 256 0x43)
        ∷ (block_key (codes "g") 2, 0x44 ∷ []) ∷ [] }
    ensures whole_block { pair_list (ruler_two 4 1)
        (write_line "write /g 0 " (replicate 256 0x43)
        ++ text ("write /g 256 44" ∷ "cut /g 256" ∷ [])) ≡
        (key_of (codes "g"), 2 ∷ 0 ∷ 0 ∷ 1 ∷ 0 ∷ [])
        ∷ (block_key (codes "g") 1, replicate 256 0x43) ∷ [] }
    ensures from_blocks { pair_list (ruler_two 4 1)
        (write_line "write /g 0 " (replicate 256 0x43)
        ++ text ("write /g 256 44" ∷ "cut /g 200" ∷ []))
        ≡ (key_of (codes "g"), 3 ∷ replicate 200 0x43) ∷ [] }
{}

/// The slots of a file of 200 bytes, and of one of 201.
pub fn slots_of_short_and_long_files()
    ensures short { table (ruler_two 4 1) (write_line "write /f 0 " (replicate 200 0x41)) ≡
        Some (page (start_label 0 0) (record {
          key = key_of (codes "f");
          value = Some (3 ∷ replicate 200 0x41);
        } ∷ []))
        ∷ None ∷ None ∷ None ∷ [] }
    ensures short_bytes { slot_bytes
        (Some (page (start_label 0 0) (record {
          key = key_of (codes "f");
          value = Some (3 ∷ replicate 200 0x41);
        } ∷ []))) ≡
        1 ∷ zeros 130 ++ 1 ∷ 0x66 ∷ zeros 123 ++ 0 ∷ 0xc9 ∷ 3 ∷ replicate 200 0x41 ++ zeros 3637 }
    ensures long { table (ruler_two 4 1)
        (write_line "write /f 0 " (replicate 200 0x41) ++ text ("write /f 200 00" ∷ [])) ≡
        Some (page (start_label 0 0)
        (record { key = key_of (codes "f"); value = Some (2 ∷ 0 ∷ 0 ∷ 0 ∷ 0xc9 ∷ []) }
        ∷ record {
          key = block_key (codes "f") 1;
          value = Some (replicate 200 0x41 ++ 0 ∷ []);
        } ∷ []))
        ∷ None ∷ None ∷ None ∷ [] }
    ensures long_bytes { slot_bytes (Some (page (start_label 0 0)
        (record { key = key_of (codes "f"); value = Some (2 ∷ 0 ∷ 0 ∷ 0 ∷ 0xc9 ∷ []) }
        ∷ record {
          key = block_key (codes "f") 1;
          value = Some (replicate 200 0x41 ++ 0 ∷ []);
        } ∷ []))) ≡
        1 ∷ zeros 130 ++ 2 ∷ 0x66 ∷ zeros 123 ++ 0 ∷ 5 ∷ 2 ∷ 0 ∷ 0 ∷ 0 ∷ 0xc9 ∷ zeros 251
        ++ 0x66 ∷ zeros 119 ++ 0 ∷ 0 ∷ 0 ∷ 1 ∷ 0 ∷ 0xc9 ∷ replicate 200 0x41 ++ zeros 3256 }
{}

/// A table of one slot takes five files of one byte under version 1 and ten under version 2; and six files take two
/// slots under the one, and one under the other.
pub fn more_short_files_fit()
    ensures one { output (ruler 1 1)
        (text ("write /a 0 41" ∷ "write /b 0 41" ∷ "write /c 0 41"
        ∷ "write /d 0 41" ∷ "write /e 0 41"
        ∷ "write /f 0 41" ∷ [])) ≡
        text ("ok" ∷ "ok" ∷ "ok" ∷ "ok" ∷ "ok" ∷ "no full 2 1" ∷ []) }
    ensures two { output (ruler_two 1 1)
        (text ("write /a 0 41" ∷ "write /b 0 41" ∷ "write /c 0 41" ∷ "write /d 0 41"
        ∷ "write /e 0 41" ∷ "write /f 0 41"
        ∷ "write /g 0 41" ∷ "write /h 0 41" ∷ "write /i 0 41" ∷ "write /j 0 41"
        ∷ "write /k 0 41" ∷ [])) ≡
        text ("ok" ∷ "ok" ∷ "ok" ∷ "ok" ∷ "ok" ∷ "ok" ∷ "ok" ∷ "ok" ∷ "ok" ∷ "ok"
        ∷ "no full 2 1" ∷ []) }
    ensures space_of_one { output (ruler 4 1)
        (text ("write /a 0 41" ∷ "write /b 0 41" ∷ "write /c 0 41"
        ∷ "write /d 0 41" ∷ "write /e 0 41"
        ∷ "write /f 0 41" ∷ "space" ∷ [])) ≡
        text ("ok" ∷ "ok" ∷ "ok" ∷ "ok" ∷ "ok" ∷ "ok" ∷ "space 2 4" ∷ []) }
    ensures space_of_two { output (ruler_two 4 1)
        (text ("write /a 0 41" ∷ "write /b 0 41" ∷ "write /c 0 41"
        ∷ "write /d 0 41" ∷ "write /e 0 41"
        ∷ "write /f 0 41" ∷ "space" ∷ [])) ≡
        text ("ok" ∷ "ok" ∷ "ok" ∷ "ok" ∷ "ok" ∷ "ok" ∷ "space 1 4" ∷ []) }
{}
