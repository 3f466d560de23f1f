//! What a user may rely on over any run of calls. The contract of each function is a law, and its body is empty.
//!
//! The laws are about the calls of one `Turns`, by one hart or by several under a lock, in the order in which they were made.
ghost use Rattle.turn_sched.specs.Rounds.{TurnsGoRound, ContextsGoInOrder};

/// Turns go round. The law is about the time from a child's wish until a hart is lent to the child or it unregisters. In that
/// time no other child is lent to twice, and at most as many children are lent to as had their turn before it.
///
/// The law doesn't state that a hart ever comes, or that a lent hart enters the child: both depend on the machine and the
/// harts. A wish that found no room is no wish of this law.
pub fn turns_go_round<C>()
    ensures { TurnsGoRound C }
{}

/// Contexts are handed out in the order in which they were put last, and none is lost or duplicated.
pub fn contexts_go_in_order<C>()
    ensures { ContextsGoInOrder C }
{}
