// The two standard set-ups of a link's channels, forward and back.
#![tactic(auto)]

ghost use Rattle.std.specs.Prelude.{◌≡◌, []};
ghost use Rattle.queues.specs.Rings.{ring_means};
ghost use Rattle.setups.specs.Setups.{first_forward, first_back, second_forward, second_back};
ghost use Rattle.setups.specs.Stacks.{IsRing, IsLine, IsLoss, IsRelay, forward_means, back_means};

use lossy::Loss;
use queues::{DelayLine, Ring};
use relays::Relay;

pub type FirstForward = Ring;

pub type FirstBack = Ring;

pub type SecondForward = Loss<Relay<Ring, DelayLine>>;

pub type SecondBack = Loss<Ring>;

// A ring of 1.
pub fn first_forward() -> FirstForward
    ensures parts { IsRing [] 1 result }
    ensures meaning { ring_means result ≡ first_forward }
    ensures numbers { ((ring_means result).capacity ≡ 1) × ((ring_means result).delay ≡ 0) × ((ring_means result).losses ≡ 0) }
{
    Ring::new(1)
}

// The same: a set-up names a channel each way.
pub fn first_back() -> FirstBack
    ensures parts { IsRing [] 1 result }
    ensures meaning { ring_means result ≡ first_back }
    ensures numbers { ((ring_means result).capacity ≡ 1) × ((ring_means result).delay ≡ 0) × ((ring_means result).losses ≡ 0) }
{
    first_forward()
}

// The first and the third word are lost; the others pass a ring of 3, then a delay line of 2 with delay 1.
pub fn second_forward() -> SecondForward
    ensures parts { IsLoss 0xA000000000000000 (IsRelay (IsRing [] 3) (IsLine [] [] 2 1)) result }
    ensures meaning { forward_means result ≡ second_forward }
    ensures numbers { ((forward_means result).capacity ≡ 5) × ((forward_means result).delay ≡ 2) × ((forward_means result).losses ≡ 2) }
{
    Loss::new(
        0xA000000000000000,
        Relay::new(Ring::new(3), DelayLine::new(2, 1)),
    )
}

// The second word is lost; the others pass a ring of 3.
pub fn second_back() -> SecondBack
    ensures parts { IsLoss 0x4000000000000000 (IsRing [] 3) result }
    ensures meaning { back_means result ≡ second_back }
    ensures numbers { ((back_means result).capacity ≡ 3) × ((back_means result).delay ≡ 0) × ((back_means result).losses ≡ 1) }
{
    Loss::new(0x4000000000000000, Ring::new(3))
}
