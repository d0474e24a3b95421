//! Handlers by their names.

ghost use Rattle.std.specs.Prelude.{◌≡◌};
ghost use Rattle.tk_keytext.specs.Handlers as handlers;

use crate::Handler;

/// The handler of that name, with its point. This takes no memory.
pub fn handler_of(name: &str) -> Option<Handler>
    ensures { result ≡ handlers.handler_of name.now }
{
    match name {
        ".cd" => Some(Handler::Cd),
        ".code" => Some(Handler::Code),
        ".code 2 args" => Some(Handler::CodeTwo),
        ".style" => Some(Handler::Style),
        ".style 2 args" => Some(Handler::StyleTwo),
        ".append style" => Some(Handler::AppendStyle),
        ".prefix style" => Some(Handler::PrefixStyle),
        ".default" => Some(Handler::Default),
        ".value required" => Some(Handler::ValueRequired),
        ".value forbidden" => Some(Handler::ValueForbidden),
        ".initial" => Some(Handler::Initial),
        ".is choice" => Some(Handler::IsChoice),
        ".store in" => Some(Handler::StoreIn),
        ".try" => Some(Handler::Try),
        _ => None,
    }
}
