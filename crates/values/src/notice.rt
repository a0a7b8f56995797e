ghost use Rattle.std.specs.Prelude.{◌≡◌, Some, IfErr};
ghost use Rattle.std.specs.Result.{result_ok};
ghost use Rattle.values.specs.Notices.{notice_bits, notice_of, notice_allowed, IsNotice};
ghost use Rattle.std.proofs.Common.{lit≤};

use crate::kind::Kind;

/// What became of the balloon.
#[derive(Clone, Copy, PartialEq, Eq, Debug)]
pub enum Notice {
    /// It left the ground: value 1.
    Released = 1,
    /// It burst at its greatest height: value 2.
    Burst = 2,
    /// The sonde is on the ground: value 3.
    Landed = 3,
    /// Nothing more is heard of it: value 4.
    Lost = 4,
}

/// A value of 64 bits that stands for no notice.
#[derive(Clone, Copy, PartialEq, Eq, Debug, thiserror::Error)]
#[error("{0} stands for no notice")]
pub struct NotANotice(pub u64);

impl TryFrom<u64> for Notice {
    type Error = NotANotice;

    ghost try_from_gives = { λ bits r. (result_ok r ≡ notice_of bits) × IsNotice bits (result_ok r) × IfErr r (λ e. e.0 ≡ bits) };

    /// The notice that a value of 64 bits stands for. `u64::from` gives the value back.
    fn try_from(bits: u64) -> Result<Notice, NotANotice>
        ensures value { result_ok result ≡ notice_of bits }
        ensures inverse { IsNotice bits (result_ok result) }
        ensures unknown { IfErr result (λ e. e.0 ≡ bits) }
    {
        match bits {
            1 => Ok(Notice::Released),
            2 => Ok(Notice::Burst),
            3 => Ok(Notice::Landed),
            4 => Ok(Notice::Lost),
            _ => Err(NotANotice(bits)),
        }
    }
}

impl From<Notice> for u64 {
    ghost from_gives = { λ notice bits. (bits ≡ notice_bits notice) × (notice_of bits ≡ Some notice) };

    /// The value of 64 bits that stands for this notice. `Notice::try_from` gives the notice back.
    fn from(notice: Notice) -> u64
        ensures value { result ≡ notice_bits notice }
        ensures inverse { notice_of result ≡ Some notice }
    {
        notice as u64
    }
}

/// The kind of notices, number 2: it allows the values that stand for a notice.
#[derive(Clone, Copy)]
pub struct Notices;

impl Notices {
    /// The kind's number.
    pub const NUMBER: u8 = 2;
}

// Like `Kind` for `Readings` but for what it allows: a macro or a wrapper type for both would be no plainer.
impl Kind for Notices {
    ghost number = { λ _. 2 };

    ghost allowed = { λ _ v. notice_allowed v };

    ghost low = { λ _. lit≤ tt };

    ghost high = { λ _. lit≤ tt };

    fn number(&self) -> u8 {
        Notices::NUMBER
    }

    fn allows(&self, value: u64) -> bool {
        Notice::try_from(value).is_ok()
    }
}
