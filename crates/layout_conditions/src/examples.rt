//! A small table that meets the conditions, and what is missed where one of its pages is gone.

ghost use Rattle.store_model.specs.Images.{slots_of};
ghost use Rattle.layout_conditions.specs.Conditions.{MeetConditions};
ghost use Rattle.layout_conditions.specs.Examples.{two_slots, both_pages, lower_alone, upper_alone};

/// A directory whose key stands on two levels has two pages, which meet the conditions. Neither does so alone.
pub fn two_pages_meet_the_conditions()
    ensures both { MeetConditions (slots_of both_pages) two_slots }
    // No key of level 1 leads to the page of level 0.
    ensures lower_alone { MeetConditions (slots_of lower_alone) two_slots → ⊥ }
    // The key of level 1 leads no group of level 0.
    ensures upper_alone { MeetConditions (slots_of upper_alone) two_slots → ⊥ }
{}
