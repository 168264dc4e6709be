//! Lengths of images, the header, and the bytes of slots.
#![tactic(auto, unfolding(crate::specs::Compute::everything))]

ghost use Rattle.std.specs.Prelude.{◌≡◌, ℕ, ◌+◌, ◌-◌, List, [], ◌∷◌, ◌++◌, codes, take, drop, length, replicate, Some};
ghost use Rattle.std.specs.Prelude.{None};
ghost use Rattle.store_model.specs.declared.draw_kind.DrawKind.TheVariants.{Sha256};
ghost use Rattle.store_model.specs.declared.version.Version.TheVariants.{One, Two};
ghost use Rattle.store_model.specs.Lists.{zeros, zero_filled, numbers_below};
ghost use Rattle.store_model.specs.Parameters.{mark_blocks, mark_at, shadow_at, table_at, image_len};
ghost use Rattle.store_model.specs.Labels.{label_bytes};
ghost use Rattle.store_model.specs.Images.{first_byte, header, slot_bytes, recovered_slot, scrubbed_slot};
ghost use Rattle.model_laws.specs.Examples.{ruler, start_label, led_label, page, directory_cell, key_cell, key_of};

/// The lengths of images.
pub fn image_lengths()
    ensures one { image_len 1 ≡ 20480 }
    ensures four { image_len 4 ≡ 45056 }
    ensures one_mark_block { image_len 4095 ≡ 33558528 }
    ensures two_mark_blocks { image_len 4096 ≡ 33570816 }
    ensures five_mark_blocks { image_len 16384 ≡ 134246400 }
    ensures largest { image_len 65536 ≡ 536948736 }
    ensures marks_of_the_largest { mark_blocks 65536 ≡ 17 }
{}

/// Where the second of two slots has its mark, its shadow block and its place in the table: behind those of the
/// first. What recovery leaves in it goes by its own mark.
pub fn areas_of_the_second_slot()
    ensures mark { mark_at 1 ≡ 8193 }
    ensures shadow { shadow_at 2 1 ≡ 16384 }
    ensures slot { table_at 2 1 ≡ 24576 }
    ensures redone { recovered_slot 2
        (zeros 4096 ++ 1 ∷ zeros 4095 ++ 0 ∷ 1 ∷ zeros 4094 ++ replicate 4096 5
        ++ replicate 4096 6 ++ replicate 4096 7 ++ replicate 4096 8) 1 ≡ replicate 4096 6 }
    ensures not_redone { recovered_slot 2
        (zeros 4096 ++ 1 ∷ zeros 4095 ++ 1 ∷ zeros 4095 ++ replicate 4096 5
        ++ replicate 4096 6 ++ replicate 4096 7 ++ replicate 4096 8) 1 ≡ replicate 4096 8 }
{}

/// The header of `format 1 1 ruler` with a seed of zeros.
pub fn header_of_one_slot()
    ensures front { take 16 (header (ruler 1 1)) ≡
        0x48 ∷ 0x53 ∷ 0x54 ∷ 0x4f ∷ 0x52 ∷ 0x45 ∷ 0x30 ∷ 0x31 ∷ 0 ∷ 0 ∷ 0 ∷ 1 ∷ 1 ∷ 0 ∷ 1 ∷ 0 ∷ [] }
    ensures behind { drop 16 (header (ruler 1 1)) ≡ zeros 4080 }
    ensures first { take 1 (header (ruler 1 1)) ≡ first_byte ∷ [] }
{}

/// The header of `format 65536 8 sha256` with a seed of the numbers below 32.
pub fn header_of_the_largest_table()
    ensures { header (record {
      slots = 65536;
      height = 8;
      kind = Sha256;
      seed = numbers_below 32;
      version = One;
    }) ≡
        codes "HSTORE01" ++ 0 ∷ 1 ∷ 0 ∷ 0 ∷ 8 ∷ 1 ∷ 1 ∷ 0 ∷ numbers_below 32 ++ zeros 4048 }
{}

/// The slot of the directory `/a` in a table of one slot.
pub fn slot_of_one_directory()
    ensures { slot_bytes (Some (page (start_label 0 0) (directory_cell (codes "a") ∷ []))) ≡
        1 ∷ zeros 130 ++ 1 ∷ 0x61 ∷ zeros 123 ++ 0 ∷ 1 ∷ 1 ∷ zeros (4095 - 258) }
{}

/// The slots of `/Ua` and `/UU` in a table of four slots.
pub fn slots_of_two_directories()
    ensures ua { slot_bytes
        (Some (page (led_label 0 (codes "Ua")) (directory_cell (codes "Ua") ∷ []))) ≡
        1 ∷ 0 ∷ 1 ∷ 0x55 ∷ 0x61 ∷ zeros 126 ++ 1 ∷ 0x55 ∷ 0x61 ∷ zeros 122 ++ 0 ∷ 1
        ∷ 1 ∷ zeros (4096 - 259) }
    ensures upper { slot_bytes
        (Some (page (start_label 1 0) (key_cell (codes "UU") ∷ key_cell (codes "Ua") ∷ []))) ≡
        1 ∷ 1 ∷ zeros 129 ++ 2 ∷ 0x55 ∷ 0x55 ∷ zeros 122 ++ 0x55 ∷ 0x61 ∷ zeros (122 + 4096 - 380) }
    ensures empty { slot_bytes None ≡ zeros 4096 }
    ensures uu { slot_bytes
        (Some (page (led_label 0 (codes "UU")) (directory_cell (codes "UU") ∷ []))) ≡
        1 ∷ 0 ∷ 1 ∷ 0x55 ∷ 0x55 ∷ zeros 126 ++ 1 ∷ 0x55 ∷ 0x55 ∷ zeros 122 ++ 0 ∷ 1
        ∷ 1 ∷ zeros (4096 - 259) }
{}

/// The slot of the file `/U` of one byte in a table of eight slots: its first pair, and behind it its block.
pub fn slot_of_a_file()
    ensures { slot_bytes (Some (page (led_label 0 (codes "U"))
        (record { key = key_of (codes "U"); value = Some (2 ∷ 0 ∷ 0 ∷ 0 ∷ 1 ∷ []) }
        ∷ record {
          key = zero_filled 120 (codes "U") ++ 0 ∷ 0 ∷ 0 ∷ 1 ∷ [];
          value = Some (0 ∷ []);
        } ∷ [])))
        ≡
        1 ∷ 0 ∷ 1 ∷ 0x55 ∷ zeros 127 ++ 2 ∷ 0x55 ∷ zeros 123 ++ 0 ∷ 5 ∷ 2 ∷ 0
        ∷ 0 ∷ 0 ∷ 1 ∷ zeros 251
        ++ 0x55 ∷ zeros 119 ++ 0 ∷ 0 ∷ 0 ∷ 1 ∷ 0 ∷ 1 ∷ 0 ∷ zeros (255 + 3200) }
{}

/// What recovery and scrubbing leave in the one slot of an image: a slot that begins with 0 is no page, and
/// scrubbing makes it zero; a marked slot takes its shadow where the commit flag is set, and only there.
pub fn recovered_and_scrubbed_slots()
    ensures kept { recovered_slot 1 (zeros 16384 ++ 0 ∷ 0x7f ∷ zeros 4094) 0
        ≡ 0 ∷ 0x7f ∷ zeros 4094 }
    ensures scrubbed { scrubbed_slot 1 (zeros 16384 ++ 0 ∷ 0x7f ∷ zeros 4094) 0 ≡ zeros 4096 }
    ensures not_scrubbed { scrubbed_slot 1 (zeros 16384 ++ 2 ∷ 0x7f ∷ zeros 4094) 0
        ≡ 2 ∷ 0x7f ∷ zeros 4094 }
    ensures redone { recovered_slot 1
        (zeros 4096 ++ 0x7f ∷ zeros 4095 ++ 1 ∷ zeros 4095 ++ 1 ∷ 2 ∷ zeros 8190) 0
        ≡ 1 ∷ 2 ∷ zeros 4094 }
    ensures not_redone { recovered_slot 1 (zeros 8192 ++ 1 ∷ zeros 4095 ++ 1 ∷ 2 ∷ zeros 8190) 0
        ≡ zeros 4096 }
    ensures not_marked { recovered_slot 1 (zeros 4096 ++ 0x7f ∷ zeros 8191 ++ 1 ∷ 2 ∷ zeros 8190) 0
        ≡ zeros 4096 }
{}
