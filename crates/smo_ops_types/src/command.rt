use crate::{Change, Op};
use prima_base::{FOREVER, NoMemory};
use std::alloc::Global;
use std::marker::Model;

/// What a command does.
#[derive(Drop)]
pub enum Body {
    /// Changes of rows, one after the other.
    Changes(Vec<Change>),
    /// An operator that makes the next version. An empty inverse means that none is named.
    Evolve { op: Op, inverse: Vec<Op> },
}

/// A command: the moment from which its effect is seen, which is below `FOREVER`, and what it does.
/// A contract sees the pair of both.
#[derive(Drop)]
pub struct Command {
    stamp: u64,
    body: Body,
}

impl Model for Command {
    ghost use Rattle.std.specs.Prelude.{ℕ, ◌<◌};
    ghost use Rattle.relations_spec.specs.Spans.{forever};
    ghost use Rattle.smo_ops_types.specs.declared.command.Body.{Body as OneBody};
    ghost use Rattle.smo_ops_types.specs.contracts.command.Body as body_row;
    ghost use Rattle.std.specs.Coded.{codes};

    ghost Value = { ℕ × OneBody };

    ghost coded = { Prim.hlevel (codes, body_row.the_row.coded) };

    ghost view = { λ c. (c.stamp, c.body) };

    ghost invariant = { λ c. c.stamp < forever };
}

impl Command {
    ghost use Rattle.std.specs.Prelude.{◌≡◌, ◌≤◌, ◌<◌, MatchOption, IfOk};
    ghost use Rattle.relations_spec.specs.Spans.{forever};
    ghost use Rattle.smo_ops_types.specs.Commands.{command_of};

    /// The command with this stamp and this body: `Some` exactly where the stamp is below
    /// `FOREVER`. It takes no memory.
    pub fn new(stamp: u64, body: Body) -> Option<Command>
        ensures { MatchOption result (forever ≤ stamp) (λ c. (stamp < forever)
            × (c ≡ (stamp, body))) }
    {
        if stamp < FOREVER {
            return Some(Command { stamp, body });
        }
        drop(body);
        None
    }

    /// The command with this stamp, which is a moment below `FOREVER`, and this body. It takes no
    /// memory.
    pub fn of(stamp: u64, body: Body) -> Command
        requires { stamp < forever }
        ensures { result ≡ (stamp, body) }
    {
        Command { stamp, body }
    }

    /// The moment from which the command's effect is seen.
    pub fn stamp(&self) -> u64
        ensures value { result ≡ self.now.0 }
        ensures valid { self.now.0 < forever }
    {
        self.stamp
    }

    /// What the command does.
    pub fn body(&self) -> &Body
        ensures value { result.now ≡ self.now.1 }
        ensures valid { self.now.0 < forever }
    {
        &self.body
    }

    /// What the command does, taken out of it.
    pub fn into_body(self) -> Body
        ensures { result ≡ self.1 }
    {
        let Command { stamp: _, body } = self;
        body
    }

    /// An equal command. The one error is `NoMemory`, where memory runs out.
    pub fn copy(&self, alloc: Global) -> Result<Command, NoMemory>
        ensures { IfOk result (λ c. command_of c ≡ command_of self.now) }
    {
        Ok(Command {
            stamp: self.stamp,
            body: self.body.copy(alloc)?,
        })
    }
}
