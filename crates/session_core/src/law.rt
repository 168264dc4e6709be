//! The law of sessions, over every history.

ghost use Rattle.store_model.specs.Parameters.{Parameters};
ghost use Rattle.store_model.specs.Trees.{Tree};
ghost use Rattle.std.specs.Prelude.{List};
ghost use Rattle.session_core.specs.Machine.{Event};
ghost use Rattle.session_core.specs.Traces.{IsSerial};

/// In every history of calls on sessions, faults, crashes and attachments, the tree is that of one serial run of the
/// groups committed, in the order of their commits. Each group is in it whole or not at all, each whose commit was
/// answered `Ok` is in it, and each question of such a group has, on the tree just before the group, the answer that
/// it had when it was asked.
pub fn every_history_is_serial()
    ensures law { (p : Parameters) (t : Tree) (events : List Event) → IsSerial p t events }
{}
