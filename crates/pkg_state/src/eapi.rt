ghost use Rattle.std.specs.Prelude.{◌≡◌, MatchOption};
ghost use Rattle.pkg_state.specs.Eapis.{IsNoEapi, eapi_text, empty_holds, has_class};

use crate::class::Class;

/// The edition of the package manager standard that a package is written for (PMS 2.2).
#[derive(Clone, Copy, Debug)]
pub enum Eapi {
    Five,
    Six,
    Seven,
    Eight,
}

impl Eapi {
    /// The edition that has this text, if it is one that is read.
    pub fn from_text(text: &str) -> Option<Eapi>
        ensures { MatchOption result (IsNoEapi text.now) (λ e. eapi_text e ≡ text.now) }
    {
        match text {
            "5" => Some(Eapi::Five),
            "6" => Some(Eapi::Six),
            "7" => Some(Eapi::Seven),
            "8" => Some(Eapi::Eight),
            _ => None,
        }
    }

    pub fn text(self) -> &'static str
        ensures { result.now ≡ eapi_text self }
    {
        match self {
            Eapi::Five => "5",
            Eapi::Six => "6",
            Eapi::Seven => "7",
            Eapi::Eight => "8",
        }
    }

    /// Whether an any-of or an exactly-one group without members holds (PMS 8.2).
    pub fn empty_holds(self) -> bool
        ensures { result ≡ empty_holds self }
    {
        match self {
            Eapi::Five | Eapi::Six => true,
            Eapi::Seven | Eapi::Eight => false,
        }
    }

    /// Whether packages have needs of this class: BDEPEND from 7 on, IDEPEND from 8 on (PMS 8.1).
    /// What is said of a class that an edition lacks is ignored.
    pub fn has_class(self, class: Class) -> bool
        ensures { result ≡ has_class self class }
    {
        match class {
            Class::Rdepend | Class::Pdepend | Class::Depend => true,
            Class::Bdepend => matches!(self, Eapi::Seven | Eapi::Eight),
            Class::Idepend => matches!(self, Eapi::Eight),
        }
    }
}
