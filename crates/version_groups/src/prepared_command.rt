use history_store::PreparedTable;
use smo_ops::Version;
use std::marker::Model;
use version_groups_tables::MadeTable;

/// What a command does.
#[derive(Drop)]
pub(crate) enum Step<'a> {
    /// A change of each table of the newest version, or none.
    Changed(Vec<Option<PreparedTable<'a>>>),
    /// The next version, the tables that begin with it, and the places of its own among all.
    Evolved(Version, Vec<MadeTable>, Vec<usize>),
}

/// A command that was prepared: it is installed into the groups that prepared it. Texts that it
/// inserts are borrowed by the command until then.
#[derive(Drop)]
pub struct PreparedCommand<'a> {
    pub(crate) stamp: u64,
    pub(crate) gained: u64,
    pub(crate) lost: u64,
    pub(crate) step: Step<'a>,
}

impl<'a> Model for PreparedCommand<'a> {
    ghost use Rattle.std.specs.Prelude.{[]};
    ghost use Rattle.version_groups.specs.Steps.{PlainPreparedCommand};
    ghost use Rattle.version_groups.specs.contracts.prepared_command.Step as step_row;
    ghost use Rattle.std.specs.Coded.{codes};
    ghost use mir.Syntax;

    ghost Value = { PlainPreparedCommand };

    ghost coded = { Prim.hlevel (
      codes,
      (step_row.the_row
          (record { mir = Syntax.erased; lft = [] })).coded,
    ) };

    ghost view = { λ n. record {
      stamp = n.stamp;
      gained = n.gained;
      lost = n.lost;
      step = n.step;
    } };
}

impl PreparedCommand<'_> {
    ghost use Rattle.std.specs.Prelude.{◌≡◌};
    ghost use Rattle.version_groups.specs.Steps.{makes_version};

    /// The moment from which the command's effect is seen.
    pub fn stamp(&self) -> u64
        ensures { result ≡ self.now.stamp }
    {
        self.stamp
    }

    /// How many rows the command gains, over all tables; 0 for an operator.
    pub fn gained(&self) -> u64
        ensures { result ≡ self.now.gained }
    {
        self.gained
    }

    /// How many rows the command loses, over all tables; 0 for an operator.
    pub fn lost(&self) -> u64
        ensures { result ≡ self.now.lost }
    {
        self.lost
    }

    /// Whether the command makes a version, as an operator does, and changes do not.
    pub fn makes_version(&self) -> bool
        ensures { result ≡ makes_version self.now.step }
    {
        match &self.step {
            Step::Changed(_) => false,
            Step::Evolved(_, _, _) => true,
        }
    }
}
