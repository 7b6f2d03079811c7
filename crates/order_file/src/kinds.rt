// The command byte of each kind of order.
ghost use Rattle.std.specs.Prelude.{◌≡◌};

// Beside `Order`, since it says which order is to be read before there is one.
#[derive(Clone, Copy, PartialEq, Eq, Debug)]
pub(crate) enum Kind {
    Account,
    Device,
    Day,
    Declare,
    Offer,
    Accept,
    Recall,
    Cancel,
}

// A byte that is no kind's command.
#[derive(Clone, Copy, PartialEq, Eq, Debug)]
pub(crate) struct NoCommand;

impl TryFrom<u8> for Kind {
    ghost use Rattle.std.specs.Result.{result_ok};
    ghost use Rattle.order_file.specs.Commands.{kind_of};

    type Error = NoCommand;

    ghost try_from_gives = { λ command r. result_ok r ≡ kind_of command };

    fn try_from(command: u8) -> Result<Kind, NoCommand> {
        match command {
            0x41 => Ok(Kind::Account),
            0x50 => Ok(Kind::Device),
            0x44 => Ok(Kind::Day),
            0x49 => Ok(Kind::Declare),
            0x4F => Ok(Kind::Offer),
            0x59 => Ok(Kind::Accept),
            0x52 => Ok(Kind::Recall),
            0x43 => Ok(Kind::Cancel),
            _ => Err(NoCommand),
        }
    }
}
