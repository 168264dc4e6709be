//! What was made is taken away again.

ghost use Rattle.host_builder.specs.Builders.{Removes};
ghost use Rattle.host_builder.specs.Takes.{TakesAway};

use crate::builder::Builder;
use crate::plan::Standing;

/// Takes away all that was made, what was made last first, and then the folder itself. It answers how much stays.
pub fn take_away<B: Builder>(builder: &mut B, mut stands: Vec<Standing>) -> u64
    ensures { TakesAway (B.state builder.old) (B.state builder.new) stands.items result }
{
    let mut stays: u64 = 0;
    while let Some(one) = stands.pop() {
        if !remove(builder, &one) {
            stays = stays.saturating_add(1);
        }
    }
    if !builder.remove_root() {
        stays = stays.saturating_add(1);
    }
    stays
}

/// Takes one thing away that was made; whether it is gone.
fn remove<B: Builder>(builder: &mut B, one: &Standing) -> bool
    ensures { Removes (B.state builder.old) (B.state builder.new) one.now.path result }
{
    if one.is_folder {
        builder.remove_folder(&one.path)
    } else {
        builder.remove_file(&one.path)
    }
}
