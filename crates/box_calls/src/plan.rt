//! What image is made of what was found in a folder, and what it will hold.

ghost use Rattle.std.specs.Prelude.{◌≡◌, ◌≤◌, ◌+◌, ◌-◌, ◌^◌, min, IfErr, IfOk, IfSome, Err};
ghost use Rattle.store_model.specs.Parameters.{slots_limit};
ghost use Rattle.store_model.specs.declared.version.Version.TheVariants.{Two};
ghost use Rattle.box_calls.specs.Endings.{Ends};
ghost use Rattle.box_calls.specs.Plans as model;
ghost use Rattle.box_calls.specs.Plans.{IsUnplanned, Plans, plan_trouble};

use crate::place::Place;
use crate::telling::{About, ended};
use crate::trouble::Trouble;
use box_words::Status;
use host_folders::Found;
use image_check::{Contents, Counts};
use image_create::{Counted, Plan, count_found, ladder};
use script_lines::Sink;
use std::alloc::Global;
use store_base::{MAX_SLOTS, Params};

/// What image is made of what was found in a folder, and what it holds where the folder stays as it was found.
#[derive(Drop)]
pub struct Planned {
    /// What image is made.
    pub plan: Plan,
    /// What it holds, as `info` prints it.
    pub contents: Contents,
    /// How many of its files are symbolic links.
    pub links: u32,
}

/// Why no image can be made of what was found in a folder.
#[derive(Clone, Copy, Debug, PartialEq, Eq)]
pub enum PlanFault {
    /// It has more than is counted.
    TooMany,
    /// It has too many pages.
    Full {
        /// The slots that it needs.
        need: u32,
        /// The slots that it may have: those that were asked for, or the most that an image has.
        slots: u32,
    },
}

/// The slots of an image of so many pages: by the ladder, or those that were asked for. `None`: the pages are more.
fn slots_of(is_laddered: bool, asked: u32, pages: u32) -> Option<u32>
    requires some { 1 ≤ asked }
    requires in_range { asked ≤ slots_limit }
    ensures value { result ≡ model.slots_of is_laddered asked pages }
    ensures in_range { IfSome result (λ slots. (1 ≤ slots) × (slots ≤ slots_limit)) }
{
    if is_laddered {
        ladder(pages)
    } else if pages <= asked {
        Some(asked)
    } else {
        None
    }
}

/// The most slots that an image may have: those that were asked for, or, by the ladder, the most of all.
fn most_of(is_laddered: bool, asked: u32) -> u32
    ensures { result ≡ model.most_of is_laddered asked }
{
    if is_laddered { MAX_SLOTS } else { asked }
}

/// The same parameters with so many slots.
fn with_slots(params: &Params, slots: u32) -> Params
    requires some { 1 ≤ slots }
    requires in_range { slots ≤ slots_limit }
    ensures { result ≡ record params.now { slots = slots } }
{
    let made = Params::new(slots, params.height(), params.kind(), params.seed());
    let Ok(made) = made else { unreachable!() };
    made.with_version(params.version())
}

/// What image of so many slots is made of what was counted.
fn planned_of(params: &Params, is_laddered: bool, slots: u32, counted: Counted) -> Planned
    requires some { 1 ≤ slots }
    requires in_range { slots ≤ slots_limit }
    requires levels { counted.levels ≡ params.now }
    ensures params { result.plan.params ≡ record params.now { slots = slots } }
    ensures levels { result.plan.levels ≡ result.plan.params }
    ensures choice { result.plan.is_laddered ≡ is_laddered }
    ensures contents { result.contents ≡ record {
      params = result.plan.params;
      used = counted.pages;
      counts = record {
        dirs = counted.folders;
        files = min (counted.files + counted.links) (2 ^ 32 - 1);
        bytes = counted.bytes;
      };
    } }
    ensures links { result.links ≡ counted.links }
{
    let Counted {
        pages,
        mut levels,
        folders,
        files,
        links,
        bytes,
    } = counted;
    levels.again(slots);
    let params = with_slots(params, slots);
    let counts = Counts {
        dirs: folders,
        files: files.saturating_add(links),
        bytes,
    };
    let contents = Contents {
        params,
        used: pages,
        counts,
    };
    Planned {
        plan: Plan {
            params,
            levels,
            is_laddered,
        },
        contents,
        links,
    }
}

/// Counts what an image under these parameters holds of what was found in a folder. Where the slots are chosen by the
/// ladder they are not those of the parameters.
/// `TooMany`: it has more than is counted. `Full`: no image has room for it, or not one of the slots that were asked
/// for.
pub fn plan_image(
    alloc: Global,
    params: &Params,
    is_laddered: bool,
    found: &[Found],
) -> Result<Planned, PlanFault>
    requires { params.now.version ≡ Two }
    ensures plans { IfOk result (Plans params.now is_laddered found.now) }
    ensures unplanned { IfErr result (IsUnplanned params.now is_laddered found.now) }
{
    let Ok(counted) = count_found(alloc, params, found) else {
        return Err(PlanFault::TooMany);
    };
    let need = counted.pages;
    match slots_of(is_laddered, params.slots(), need) {
        Some(slots) => Ok(planned_of(params, is_laddered, slots, counted)),
        None => {
            let slots = most_of(is_laddered, params.slots());
            Err(PlanFault::Full { need, slots })
        }
    }
}

/// The trouble with a folder of which no image can be made.
fn plan_trouble(fault: PlanFault) -> Trouble
    ensures { result ≡ plan_trouble fault }
{
    match fault {
        PlanFault::TooMany => Trouble::TooMuch,
        PlanFault::Full { need: _, slots: _ } => Trouble::Full,
    }
}

/// Says why no image can be made of a folder, and answers how the call ends.
pub fn unplanned<E: Sink>(place: &Place<'_>, fault: PlanFault, say: &mut E) -> Status
    ensures { Ends (Err (plan_trouble fault)) result (E.state say.old) (E.state say.new) }
{
    let about = match fault {
        PlanFault::TooMany => About::Image,
        PlanFault::Full { need, slots } => About::Slots(need, slots),
    };
    ended(place, Err(plan_trouble(fault)), about, say)
}
