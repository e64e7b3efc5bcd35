//! Why a connection isn't heard any more.
ghost use Rattle.std.specs.Prelude.{◌≡◌};
ghost use Rattle.spl_talk.specs.declared.fault.TalkFault.TheVariants.{NoMemory};

use spl_fragments::JoinFault;
use spl_frame::FrameFault;
use spl_link::LinkFault;
use std::alloc::AllocError;

/// Why a connection isn't heard any more.
#[derive(Clone, Copy, Drop)]
pub enum TalkFault {
    /// A header of a frame has a fault.
    Frame(FrameFault),
    /// The peer didn't name itself as it should.
    Name(LinkFault),
    /// A node that doesn't stand before this one in the registry opened the connection.
    NotLower,
    /// A body isn't that of a message.
    Message(JoinFault),
    NoMemory,
}

impl From<AllocError> for TalkFault {
    ghost from_gives = { λ _ e. e ≡ NoMemory };

    fn from(_e: AllocError) -> TalkFault {
        TalkFault::NoMemory
    }
}

impl From<FrameFault> for TalkFault {
    ghost use Rattle.spl_talk.specs.Talks.{of_frame};

    ghost from_gives = { λ f e. e ≡ of_frame f };

    fn from(e: FrameFault) -> TalkFault {
        match e {
            FrameFault::NoMemory => TalkFault::NoMemory,
            fault => TalkFault::Frame(fault),
        }
    }
}

impl From<JoinFault> for TalkFault {
    ghost use Rattle.spl_talk.specs.Talks.{of_joiner};

    ghost from_gives = { λ f e. e ≡ of_joiner f };

    fn from(e: JoinFault) -> TalkFault {
        match e {
            JoinFault::NoMemory => TalkFault::NoMemory,
            fault => TalkFault::Message(fault),
        }
    }
}
