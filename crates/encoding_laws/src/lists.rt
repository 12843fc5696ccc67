ghost use Rattle.std.specs.List.{AllByRecursion};

/// A type whose values can be encoded.
pub(crate) trait Fits {
    /// What has to be known of the value.
    ghost can: { Self → Type 0 };

    ghost takes: { Self → Type 0 };

    fn fits(&self)
        requires { can self.now }
        ensures { takes self.now };
}

/// Each value of the list can be encoded.
pub(crate) fn all_fit<T: Fits>(list: &[T])
    requires { AllByRecursion T.can list.now }
    ensures { AllByRecursion T.takes list.now }
{
    for value in list {
        value.fits();
    }
}
