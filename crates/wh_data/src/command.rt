//! Commands of the program, and the headings of their answers.
ghost use Rattle.std.specs.Prelude.{◌≡◌};
ghost use Rattle.wh_data.specs.Commands.{command_name, command_named, is_checked, answer_version, is_unchecked_name};

/// What is asked for.
#[derive(Clone, Copy, PartialEq, Eq, Debug)]
pub enum Command {
    /// A trace from a tuple to one that no cut shortens, with its end.
    Reduce,
    /// Whether moves carry one tuple onto another.
    Decide,
    /// A straight list of moves in the place of another.
    Straighten,
    /// Generators and relators of the stabiliser of a tuple.
    Stabiliser,
}

impl Command {
    /// Its name, on the command line and in headings.
    pub fn name(self) -> &'static [u8]
        ensures { result.now ≡ command_name self }
    {
        match self {
            Command::Reduce => b"reduce",
            Command::Decide => b"decide",
            Command::Straighten => b"straighten",
            Command::Stabiliser => b"stabiliser",
        }
    }

    /// The command of a name, where there is one.
    pub fn named(name: &[u8]) -> Option<Command>
        ensures { result ≡ command_named name.now }
    {
        if name == Command::Reduce.name() {
            Some(Command::Reduce)
        } else if name == Command::Decide.name() {
            Some(Command::Decide)
        } else if name == Command::Straighten.name() {
            Some(Command::Straighten)
        } else if name == Command::Stabiliser.name() {
            Some(Command::Stabiliser)
        } else {
            None
        }
    }

    /// Whether its answers can be checked.
    pub fn is_checked(self) -> bool
        ensures { result ≡ is_checked self }
    {
        match self {
            Command::Reduce => true,
            Command::Decide => true,
            Command::Straighten => false,
            Command::Stabiliser => true,
        }
    }
}

/// The version of the form of answers.
pub fn answer_version() -> &'static [u8]
    ensures { result.now ≡ answer_version }
{
    b"1"
}

/// Whether a name is one of a command to come, whose answers aren't certificates.
pub fn is_unchecked_name(name: &[u8]) -> bool
    ensures { result ≡ is_unchecked_name name.now }
{
    name == b"gen".as_slice()
}
