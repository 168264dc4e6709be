//! What holds of pictures.

ghost use Rattle.std.specs.Prelude.{◌≡◌, ℕ, List};
ghost use Rattle.slot_map.specs.Pictures.{IsMapOf};

/// An image has one picture.
pub fn an_image_has_one_picture()
    ensures { (image one other : List ℕ) → IsMapOf image one → IsMapOf image other → one ≡ other }
{}
