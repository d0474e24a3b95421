//! A picture as it is drawn, and what stands next in its list.

ghost use Rattle.std.specs.Prelude.{◌≡◌, ◌≤◌, length, IfOk, OnOk, ◌++◌};
ghost use Rattle.std.specs.List.{AllByRecursion};
ghost use Rattle.tk_svg.specs.Fitting.{BeginsWithMove, FitsItem};
ghost use Rattle.tk_expr.specs.Evaluates.{Evaluation};
ghost use Rattle.tk_keys.specs.State.{given_of};
ghost use Rattle.tk_token.specs.Refusals.{Gives};
ghost use Rattle.tk_path.specs.Configurations.{token_ahead, ahead_of};
ghost use Rattle.tk_path.specs.Pictures as pictures;
ghost use Rattle.tk_path.specs.Pictures.{drawn};
ghost use Rattle.tk_outline.specs.CurrentPaths.{CurrentPath as ACurrentPath, no_path};
ghost use Rattle.tk_path.specs.Views.{given_to, picture_of, configuration_of, lookahead_of, OnlyPays, IsSound};
ghost use Rattle.tk_path.specs.Undoing.{work_left, with_taken};

use std::alloc::AllocError;
use tk_expand::Input;
use tk_item::{Frame, Item, Items, Segs, widen};
use tk_keys::State;
use tk_look::{Look, look_fill, look_reach, look_stroke};
use tk_outline::CurrentPath;
use tk_token::{Code, Refusal, Tok};

/// What a part of a run leaves: more parts follow, or the end was met.
#[derive(Clone, Copy)]
pub enum Flow {
    GoesOn,
    Finishes,
}

/// A picture as it is drawn: the state of the run, the items so far, and the frame round them. Each item is a path that
/// fits an SVG document.
#[derive(Drop)]
pub struct Drawer {
    pub state: State,
    pub items: Items,
    pub frame: Option<Frame>,
}

impl Drawer {
    /// Takes the next token that is no Space, with the Spaces before it.
    #[tactic(auto, unfolding(crate::specs::Configurations::ahead_of))]
    pub fn ahead(&mut self, input: &mut Input) -> Result<Option<Tok>, Refusal>
        ensures gives { (ev : Evaluation) (path : ACurrentPath)
            → Gives (λ tok. lookahead_of tok self.new path input.new) result
            (ahead_of (given_of ev self.old.state) (configuration_of self.old path input.old)) }
        ensures pays { OnlyPays self.old self.new }
        ensures falls { IfOk result (λ tok.
            work_left self.new (with_taken tok input.new)
            ≤ work_left self.old (length input.old.rest)) }
    {
        self.state.next_solid(input)
    }

    /// Takes the next token.
    #[tactic(auto, unfolding(crate::specs::Configurations::token_ahead))]
    pub(crate) fn token(&mut self, input: &mut Input) -> Result<Option<Tok>, Refusal>
        ensures gives { (path : ACurrentPath) → Gives
            (λ tok. lookahead_of tok self.new path input.new) result
            (token_ahead (given_to self.old) (configuration_of self.old path input.old)) }
        ensures pays { OnlyPays self.old self.new }
    {
        self.state.next(input)
    }

    /// Puts the path that was read into the picture: it widens the frame, and is an item where the look fills or draws
    /// it.
    pub(crate) fn add(&mut self, path: CurrentPath) -> Result<(), AllocError>
        requires sound { IsSound self.old }
        ensures picture { OnOk result (picture_of self.new no_path
            ≡ drawn self.old.state.graphics.look (picture_of self.old path)) }
        ensures sound { OnOk result (IsSound self.new) }
        ensures state { OnOk result (self.new.state ≡ self.old.state) }
    {
        let Some(segs) = path.into_segs() else {
            return Ok(());
        };
        let look = &self.state.graphics().look;
        self.frame = widen(self.frame, segs.as_slice(), look_reach(look));
        push_path(&mut self.items, segs, look)
    }
}

/// Puts a path at the end of items, if a look fills or draws it.
#[tactic(auto, using(crate::proofs::FittingStrokes::stroke_fits))]
fn push_path(items: &mut Items, segs: Segs, look: &Look) -> Result<(), AllocError>
    requires { BeginsWithMove segs }
    ensures items { OnOk result (items.new ≡ items.old ++ pictures.path_items look.now segs) }
    ensures fits { OnOk result
        (AllByRecursion FitsItem items.old → AllByRecursion FitsItem items.new) }
{
    if !(look.fill_on || look.draw_on) {
        return Ok(());
    }
    items.push(Item::Path(segs, look_fill(look), look_stroke(look)))
}

/// The fault of a token that fits nothing on a path.
pub(crate) fn misfit(at: u32) -> Refusal
    ensures { result ≡ Refusal.Fault (record { code = Code.PathSyntax; at = at }) }
{
    Refusal::new(Code::PathSyntax, at)
}
