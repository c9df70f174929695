//! What a server owes next.

ghost use Rattle.std.specs.Prelude.{◌≡◌, ◌<◌, ◌≤◌, ◌^◌, IfSome, length};
ghost use Rattle.std.specs.Option.{option_map};
ghost use Rattle.xdr.specs.Item.{Fits};
ghost use Rattle.state_spec.specs.StateItems.{stage_item, stage_value};
ghost use Rattle.state_machine.specs.declared.body.TheConstants.{MAX_BODY};
ghost use Rattle.state_machine.specs.Stages.{stage_in};
ghost use Rattle.state_spec.specs.Steps.{owing};

use crate::body::MessageBody;

/// What a server owes next.
#[derive(Drop)]
pub enum Stage {
    /// Nothing.
    Idle,
    /// A clock reading, for a message that it heard from a node.
    Heard { from: u32, body: MessageBody },
    /// A message to a node, which is a reply.
    Owes { to: u32, body: MessageBody },
}

impl Stage {
    /// What a server owes to a node whose message was answered: the reply, if there is one.
    pub(crate) fn owing(to: u32, reply: Option<Vec<u8>>) -> Stage
        requires { IfSome reply (λ bytes. length bytes.items ≤ MAX_BODY) }
        ensures { stage_in result ≡ owing to (option_map (λ bytes. bytes.items) reply) }
    {
        match reply {
            Some(bytes) => Stage::Owes {
                to,
                body: MessageBody::new(bytes),
            },
            None => Stage::Idle,
        }
    }

    /// It is within the bounds of a text, as its types keep it: does nothing, and tells a caller's proof.
    pub(crate) fn is_bounded(&self)
        ensures { Fits stage_item (stage_value (stage_in self.now)) }
    {
        match self {
            Stage::Idle => {}
            Stage::Heard { from, body } => {
                is_word(*from);
                let _bytes = body.bytes();
            }
            Stage::Owes { to, body } => {
                is_word(*to);
                let _bytes = body.bytes();
            }
        }
    }
}

/// A number is within 32 bits, as its type keeps it: does nothing, and tells a caller's proof.
pub(crate) fn is_word(number: u32)
    ensures { number < 2 ^ 32 }
{
    let _number = number;
}
