ghost use Rattle.std.specs.Prelude.{◌≡◌};
ghost use Rattle.door.specs.RoundCalls.{observer_parts};

pub mod calls;

use ends::Observer;

// How many exchanges were completed, and which of them was the first that left the link clean, 0 while none has.
#[repr(C)]
#[derive(Clone, Copy)]
pub struct ObserverParts {
    pub completed: u16,
    pub first: u16,
}

impl From<Observer> for ObserverParts {
    ghost from_gives = { λ observer parts. parts ≡ observer_parts observer };

    fn from(observer: Observer) -> ObserverParts {
        ObserverParts {
            completed: observer.completed,
            first: observer.first,
        }
    }
}
