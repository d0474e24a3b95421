//! What begins a setting.

ghost use Rattle.std.specs.Prelude.{◌≡◌, [], unwrap_or};
ghost use Rattle.std.specs.List.{slice_get};
ghost use Rattle.tk_keys.specs.Settings as settings;

use crate::State;
use tk_define::DefinitionWord;
use tk_token::Kind;

/// The default path that a key list begins with.
#[derive(Clone, Copy, PartialEq, Eq)]
pub(crate) enum Origin {
    Root,
    /// The running default path.
    Here,
    /// `/tikz`
    Tikz,
}

/// The settings, by what they do.
#[derive(Clone, Copy, PartialEq, Eq)]
pub(crate) enum Setting {
    /// `\relax`, a Space and `;` set nothing.
    Nothing,
    Define(DefinitionWord),
    /// A key list.
    Keys(Origin),
    /// `\pgfkeyssetvalue`
    SetValue,
    /// `\pgfkeysgetvalue`
    GetValue,
    /// `\pgfmathsetmacro`
    SetNumber,
    /// `\pgfmathtruncatemacro`
    SetWhole,
}

/// The setting that a control word begins.
fn setting_by(word: &str) -> Option<Setting>
    ensures { result ≡ settings.setting_by word.now }
{
    match word {
        "def" => Some(Setting::Define(DefinitionWord::Def)),
        "edef" => Some(Setting::Define(DefinitionWord::Edef)),
        "newcommand" | "renewcommand" => Some(Setting::Define(DefinitionWord::NewCommand)),
        "pgfkeys" => Some(Setting::Keys(Origin::Root)),
        "pgfkeysalso" => Some(Setting::Keys(Origin::Here)),
        "tikzset" => Some(Setting::Keys(Origin::Tikz)),
        "pgfkeyssetvalue" => Some(Setting::SetValue),
        "pgfkeysgetvalue" => Some(Setting::GetValue),
        "pgfmathsetmacro" => Some(Setting::SetNumber),
        "pgfmathtruncatemacro" => Some(Setting::SetWhole),
        "relax" => Some(Setting::Nothing),
        _ => None,
    }
}

impl State {
    /// The setting that a token begins. This takes no memory.
    pub(crate) fn setting_of(&self, kind: Kind) -> Option<Setting>
        ensures { result ≡ settings.setting_of self.now.names kind }
    {
        match kind {
            Kind::Word(n) => setting_by(self.names.word(n)?),
            Kind::Char(';') | Kind::Space => Some(Setting::Nothing),
            _ => None,
        }
    }
}
