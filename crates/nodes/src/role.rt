//! What a node is in the service.

ghost use Rattle.std.specs.Prelude.{◌≡◌};

use authenticator::Kind;

/// What a node is in the service, as a type, which stands for a kind of member.
pub trait Role {
    ghost use Rattle.authenticator.specs.declared.member.Kind.{Kind};

    ghost kind: { Kind };

    /// The kind as which a roster lists such a node.
    fn kind() -> Kind
        ensures { result ≡ kind };
}

/// The role of a node that serves files.
#[derive(Clone, Copy, Debug)]
pub struct Server;

/// The role of a node that calls a server.
#[derive(Clone, Copy, Debug)]
pub struct Client;

impl Role for Server {
    ghost use Rattle.authenticator.specs.declared.member.Kind.TheVariants as kinds;

    ghost kind = { kinds.Server };

    fn kind() -> Kind {
        Kind::Server
    }
}

impl Role for Client {
    ghost use Rattle.authenticator.specs.declared.member.Kind.TheVariants as kinds;

    ghost kind = { kinds.Client };

    fn kind() -> Kind {
        Kind::Client
    }
}
