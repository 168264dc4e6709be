//! The table of statuses, spelled out: each contract of a function with an empty body lists what follows from it.

ghost use Rattle.std.specs.Prelude.{◌≡◌, ◌∷◌, ℕ, [], map};
ghost use Rattle.std.specs.List.{filter};
ghost use Rattle.image_subcommands.specs.Statuses.{Subcommand, row, every_status, endings, spelled, IsOneOf};
ghost use Rattle.image_subcommands.specs.Statuses.{IsStatusOf};
ghost use Rattle.image_subcommands.specs.declared.status.Status.{Status};
ghost use Rattle.image_subcommands.specs.declared.status.Status.TheVariants.{Done, Usage, SourceFault, SinkFault};
ghost use Rattle.image_subcommands.specs.declared.status.Status.TheVariants.{DiskFault, TooLong, NotImage, Damaged};
ghost use Rattle.image_subcommands.specs.declared.status.Status.TheVariants.{NoMemory, AlreadyImage, WrongLength};
ghost use Rattle.image_subcommands.specs.declared.status.Status.TheVariants.{Unequal, NotEmpty, BadListing, TooFull};

/// The number of each status, and by which each subcommand may end.
pub fn table_is_spelled_out()
    ensures numbers { map {B = Status × ℕ} (λ s. (s, (row s).code)) every_status
        ≡ (Done, 0) ∷ (Usage, 2) ∷ (SourceFault, 3) ∷ (SinkFault, 4) ∷ (DiskFault, 5) ∷ (TooLong, 6)
        ∷ (NotImage, 7) ∷ (Damaged, 8) ∷ (NoMemory, 9) ∷ (AlreadyImage, 10) ∷ (WrongLength, 11)
        ∷ (Unequal, 13) ∷ (NotEmpty, 14) ∷ (BadListing, 15) ∷ (TooFull, 16) ∷ [] }
    ensures words { (word : Subcommand) → endings word ≡ spelled word }
    ensures ends { (word : Subcommand) (status : Status) → IsStatusOf word status
        → IsOneOf status (endings word) }
{}

/// Of which statuses each other column is true.
pub fn columns()
    ensures done { filter (λ s. (row s).is_done) every_status ≡ Done ∷ [] }
    ensures judged { filter (λ s. (row s).is_judged) every_status
        ≡ Done ∷ SinkFault ∷ NotImage ∷ Damaged ∷ [] }
    ensures refused_image { filter (λ s. (row s).refuses_image) every_status
        ≡ NotImage ∷ Damaged ∷ [] }
    ensures refused_disk { filter (λ s. (row s).refuses_disk) every_status
        ≡ AlreadyImage ∷ WrongLength ∷ [] }
    ensures spares_second { filter (λ s. (row s).spares_second) every_status
        ≡ NotImage ∷ Damaged ∷ NoMemory ∷ Unequal ∷ [] }
    ensures mirrored { filter (λ s. (row s).is_mirrored) every_status ≡ Done ∷ SinkFault ∷ [] }
    ensures past_header { filter (λ s. (row s).is_past_header) every_status
        ≡ Done ∷ SourceFault ∷ SinkFault ∷ TooLong ∷ Damaged ∷ NotEmpty ∷ BadListing ∷ TooFull ∷ [] }
    ensures between_lines { filter (λ s. (row s).is_between_lines) every_status
        ≡ Done ∷ SourceFault ∷ SinkFault ∷ TooLong ∷ [] }
    ensures cut_short { filter (λ s. (row s).is_cut_short) every_status
        ≡ SourceFault ∷ DiskFault ∷ TooLong ∷ NoMemory ∷ [] }
    ensures come_first { filter (λ s. (row s).may_come_first) every_status
        ≡ DiskFault ∷ NoMemory ∷ [] }
    ensures read_whole { filter (λ s. (row s).is_read_whole) every_status
        ≡ Done ∷ SinkFault ∷ BadListing ∷ TooFull ∷ [] }
{}
