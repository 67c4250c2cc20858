// Channels that move as their shapes: stacks of rings, delay lines, losses and relays whose calls can be computed.
#![tactic(auto)]

ghost use Rattle.channel.specs.Meaning.{behaviour};
ghost use Rattle.shapes.specs.Shapes.{Shape};
ghost use Rattle.shapes.specs.Moves.{Moves};
ghost use Rattle.shapes.specs.Stacks.{ring_shape, line_shape, loss_shape, relay_shape};
ghost use Rattle.shapes.specs.Queues.{ring_moves, line_moves};
ghost use Rattle.shapes.specs.Layers.{loss_moves, relay_moves};

use channel::Channel;
use lossy::Loss;
use queues::{DelayLine, Ring};
use relays::Relay;

// A channel whose calls are known to the last word from its shape.
pub trait Shaped: Channel {
    ghost shape: { Self → Shape };

    ghost moves: { Moves shape (behaviour Self.Channel.contents Self.Channel.capacity Self.Channel.delay Self.Channel.wait Self.Channel.losses Self.Channel.is_open Self.Channel.puts Self.Channel.takes Self.Channel.ticks) };
}

impl Shaped for Ring {
    ghost shape = { ring_shape };

    ghost moves = { ring_moves };
}

impl Shaped for DelayLine {
    ghost shape = { line_shape };

    ghost moves = { line_moves };
}

impl<C: Shaped> Shaped for Loss<C> {
    ghost shape = { loss_shape C.Shaped.shape };

    ghost moves = { loss_moves C.Shaped.moves };
}

impl<U: Shaped, L: Shaped> Shaped for Relay<U, L> {
    ghost shape = { relay_shape U.Shaped.shape L.Shaped.shape };

    ghost moves = { relay_moves U.Shaped.moves L.Shaped.moves };
}
