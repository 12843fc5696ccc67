ghost use Rattle.std.specs.Prelude.{◌≡◌};
ghost use Rattle.view_sessions.specs.Paths.{is_of, is_of_groups, is_of_runs, parameter_named};

use crate::path::Path;

/// The name of a parameter.
#[derive(Clone, Copy, PartialEq, Eq)]
pub(crate) enum Parameter {
    Status,
    Conclusion,
    Repository,
    Path,
    Event,
    Reference,
    Group,
    Before,
    Limit,
    From,
    Name,
    After,
    Wait,
}

impl Parameter {
    pub(crate) fn named(name: &[u8]) -> Option<Parameter>
        ensures { result ≡ parameter_named name.now }
    {
        if name == b"status".as_slice() {
            Some(Parameter::Status)
        } else if name == b"conclusion".as_slice() {
            Some(Parameter::Conclusion)
        } else if name == b"repo".as_slice() {
            Some(Parameter::Repository)
        } else if name == b"path".as_slice() {
            Some(Parameter::Path)
        } else if name == b"event".as_slice() {
            Some(Parameter::Event)
        } else if name == b"ref".as_slice() {
            Some(Parameter::Reference)
        } else if name == b"group".as_slice() {
            Some(Parameter::Group)
        } else if name == b"before".as_slice() {
            Some(Parameter::Before)
        } else if name == b"limit".as_slice() {
            Some(Parameter::Limit)
        } else if name == b"from".as_slice() {
            Some(Parameter::From)
        } else if name == b"name".as_slice() {
            Some(Parameter::Name)
        } else if name == b"after".as_slice() {
            Some(Parameter::After)
        } else if name == b"wait".as_slice() {
            Some(Parameter::Wait)
        } else {
            None
        }
    }

    /// Whether a path has this parameter.
    pub(crate) fn is_of(self, path: &Path) -> bool
        ensures { result ≡ is_of path.now self }
    {
        match path {
            Path::Runs => self.is_of_runs(),
            Path::Run(_) => matches!(self, Parameter::From),
            Path::Queue => matches!(self, Parameter::From | Parameter::Limit),
            Path::Runners => {
                matches!(self, Parameter::Name | Parameter::After | Parameter::Limit)
            }
            Path::Groups => self.is_of_groups(),
            Path::Changes => matches!(self, Parameter::After | Parameter::Wait),
            Path::Body(_) | Path::Health | Path::Metrics => false,
            Path::Backup | Path::Board(_) => false,
        }
    }

    fn is_of_runs(self) -> bool
        ensures { result ≡ is_of_runs self }
    {
        !matches!(
            self,
            Parameter::From | Parameter::Name | Parameter::After | Parameter::Wait
        )
    }

    fn is_of_groups(self) -> bool
        ensures { result ≡ is_of_groups self }
    {
        matches!(
            self,
            Parameter::Repository | Parameter::Group | Parameter::From | Parameter::Limit
        )
    }
}
