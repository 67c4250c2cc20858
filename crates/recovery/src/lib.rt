// Recovery: from any state of its ends and channels, a link delivers every record once and in order again, after a known number of exchanges.
#![tactic(auto)]

ghost use Rattle.channel.specs.Behaviours.{behaviour_of};
ghost use Rattle.recovery.specs.Example.{Happens};
ghost use Rattle.recovery.specs.Findings.{NamesFirst};
ghost use Rattle.recovery.specs.Promise.{Promise};

use channel::Channel;
pub use ends::{Observer, Receiver, Sender, State};

// The promise, for records of any type and any two sorts of channel.
pub fn recovers<T, F: Channel, B: Channel>()
    ensures { Promise T (behaviour_of F.Channel) (behaviour_of B.Channel) }
{}

// After one exchange more than may leave the link unclean, the observer names the first clean one.
pub fn names_first()
    ensures { NamesFirst }
{}

// The promise is about something: a small link that starts out of step recovers in a run of three exchanges.
pub fn happens()
    ensures { Happens }
{}
