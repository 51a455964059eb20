//! Payments.
ghost use Rattle.std.specs.Prelude.{◌≡◌};

/// An amount that goes to an account. It has no copy, and only a line of a day makes one. So only
/// its holder can make the payment.
#[derive(Debug, PartialEq, Drop)]
pub(crate) struct Payment {
    id: u64,
    account: u64,
    cents: u64,
}

impl Payment {
    /// Returns the payment at this place of a day's list, from 1.
    pub(super) fn new(id: u64, account: u64, cents: u64) -> Payment
        ensures { result ≡ record { id = id; account = account; cents = cents } }
    {
        Payment { id, account, cents }
    }

    /// Returns its place in the day's list, from 1. The journal names it by this number.
    pub(crate) fn id(&self) -> u64
        ensures { result ≡ self.now.id }
    {
        self.id
    }

    /// Returns the account that gets it.
    pub(crate) fn account(&self) -> u64
        ensures { result ≡ self.now.account }
    {
        self.account
    }

    /// Returns the amount, in hundredths.
    pub(crate) fn cents(&self) -> u64
        ensures { result ≡ self.now.cents }
    {
        self.cents
    }
}
