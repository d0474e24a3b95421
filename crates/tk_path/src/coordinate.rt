//! Coordinates.

ghost use Rattle.std.specs.Prelude.{◌≡◌, OnOk};
ghost use Rattle.tk_characters.specs.Characters.{right_parenthesis};
ghost use Rattle.tk_token.specs.declared.Code.TheVariants.{Coordinate};
ghost use Rattle.tk_token.specs.Answers.{or_fault};
ghost use Rattle.tk_token.specs.Groups.{cut, before_char};
ghost use Rattle.tk_token.specs.Refusals.{Gives};
ghost use Rattle.tk_expand.specs.Unread.{Unread};
ghost use Rattle.tk_expr.specs.Evaluated.{evaluated};
ghost use Rattle.tk_coord.specs.Coordinates.{target_of};
ghost use Rattle.tk_path.specs.Coordinates as spec;
ghost use Rattle.tk_outline.specs.CurrentPaths.{CurrentPath as ACurrentPath};
ghost use Rattle.tk_path.specs.Views.{given_to, configuration_of, lookahead_of, reached_at, written_of, OnlyPays};

use crate::drawer::Drawer;
use tk_coord::{TextTarget, resolve};
use tk_expand::{Input, is_there};
use tk_item::Point;
use tk_token::{Code, Refusal, Tok};

/// What stands before the `(` of a coordinate.
#[derive(Clone, Copy)]
pub(crate) enum Sign {
    /// Nothing.
    Absolute,
    /// `+`: the coordinate is relative.
    Relative,
    /// `++`: it is relative, and the reference point goes there.
    Leading,
}

/// A coordinate as it is written: its sign, the place of its `(`, and its text up to the first `)` outside braces.
#[derive(Drop)]
pub(crate) struct Written {
    pub(crate) sign: Sign,
    pub(crate) at: u32,
    pub(crate) text: Vec<Tok>,
}

impl Sign {
    /// Whether the reference point goes there.
    pub(crate) fn leads(self) -> bool
        ensures { result ≡ spec.leads self }
    {
        match self {
            Sign::Relative => false,
            Sign::Absolute | Sign::Leading => true,
        }
    }

    /// The point that it starts from, where it is relative to that point.
    fn start(self, from: Point) -> Option<Point>
        ensures { result ≡ spec.start_of self from }
    {
        match self {
            Sign::Absolute => None,
            Sign::Relative | Sign::Leading => Some(from),
        }
    }
}

impl Drawer {
    /// Reads a coordinate that begins with a token which was taken.
    #[tactic(auto, unfolding(crate::specs::Coordinates::coordinate_from))]
    pub(crate) fn coordinate_from(
        &mut self,
        input: &mut Input,
        first: Option<Tok>,
    ) -> Result<Written, Refusal>
        ensures gives { (path : ACurrentPath)
            → Gives (λ written. reached_at (written_of written) self.new path input.new) result
            (spec.coordinate_from (given_to self.old)
            (lookahead_of first self.old path input.old)) }
        ensures pays { OnOk result (OnlyPays self.old self.new) }
    {
        if is_there(first, '+') {
            return self.behind_plus(input);
        }
        self.parenthesized(input, Sign::Absolute, first)
    }

    /// Reads a coordinate whose first `+` was taken.
    #[tactic(auto, unfolding(crate::specs::Coordinates::behind_plus))]
    fn behind_plus(&mut self, input: &mut Input) -> Result<Written, Refusal>
        ensures gives { (path : ACurrentPath)
            → Gives (λ written. reached_at (written_of written) self.new path input.new) result
            (spec.behind_plus (given_to self.old) (configuration_of self.old path input.old)) }
        ensures pays { OnOk result (OnlyPays self.old self.new) }
    {
        let second = self.token(input)?;
        if is_there(second, '+') {
            let first = self.ahead(input)?;
            return self.parenthesized(input, Sign::Leading, first);
        }
        let first = self.past_spaces(input, second)?;
        self.parenthesized(input, Sign::Relative, first)
    }

    /// A token that was taken, or the one behind the Spaces that it begins.
    fn past_spaces(&mut self, input: &mut Input, first: Option<Tok>) -> Result<Option<Tok>, Refusal>
        ensures gives { (path : ACurrentPath) → Gives
            (λ tok. lookahead_of tok self.new path input.new) result
            (spec.past_spaces_from (given_to self.old)
            (lookahead_of first self.old path input.old)) }
        ensures pays { OnOk result (OnlyPays self.old self.new) }
    {
        match first {
            Some(tok) => {
                if tok.kind.is_space() {
                    return self.ahead(input);
                }
                Ok(first)
            }
            None => Ok(None),
        }
    }

    /// Reads a coordinate whose `(` was taken, if that is the token.
    #[tactic(auto, unfolding(crate::specs::Configurations::must_be, crate::specs::Coordinates::parenthesized))]
    fn parenthesized(
        &self,
        input: &mut Input,
        sign: Sign,
        first: Option<Tok>,
    ) -> Result<Written, Refusal>
        ensures gives { (path : ACurrentPath)
            → Gives (λ written. reached_at (written_of written) self.now path input.new) result
            (spec.parenthesized sign (lookahead_of first self.now path input.old)) }
    {
        input.expect(Code::PathSyntax, first, '(')?;
        let at = input.place(first);
        self.behind_parenthesis(input, sign, at)
    }

    /// Reads a coordinate whose `(` was taken at that place.
    #[tactic(auto, unfolding(crate::specs::Coordinates::behind_parenthesis))]
    fn behind_parenthesis(&self, input: &mut Input, sign: Sign, at: u32) -> Result<Written, Refusal>
        ensures gives { (path : ACurrentPath)
            → Gives (λ written. reached_at (written_of written) self.now path input.new) result
            (spec.behind_parenthesis sign at (configuration_of self.now path input.old)) }
    {
        let text = written_text(input, at)?;
        Ok(Written { sign, at, text })
    }

    /// The point of a coordinate, relative to a point where it has a sign.
    #[tactic(auto, unfolding(crate::specs::Coordinates::coordinate_point))]
    pub(crate) fn coordinate_point(
        &mut self,
        written: Written,
        from: Point,
    ) -> Result<Point, Refusal>
        ensures gives { (path : ACurrentPath) (rest : Unread)
            → Gives (λ point. reached_at point self.new path rest) result
            (spec.coordinate_point (given_to self.old) from (written_of written)
            (configuration_of self.old path rest)) }
        ensures pays { OnOk result (OnlyPays self.old self.new) }
    {
        let Written { sign, at, text } = written;
        let text = self.state.expand(text)?;
        self.point_of_text(&text, sign.start(from), at)
    }

    /// The point of a coordinate whose text was expanded and whose `(` stands at that place, relative to a point if
    /// there is one.
    #[tactic(auto, unfolding(crate::specs::Coordinates::point_of_target))]
    fn point_of_text(&self, text: &[Tok], from: Option<Point>, at: u32) -> Result<Point, Refusal>
        ensures { Gives
            (λ point. point) result (spec.point_of_target (target_of evaluated self.now.state.font
            self.now.state.graphics.look self.now.state.graphics.matrix at from text.now)) }
    {
        // The checker has a bug at a `?` here: it isn't told in which modules `NodeRecord` stands.
        match self.target_of_text(text, from, at) {
            Ok(target) => Ok(target.point),
            Err(refusal) => Err(refusal),
        }
    }

    /// What the text of a coordinate stands for that was expanded and whose `(` stands at that place, relative to a
    /// point if there is one.
    fn target_of_text(
        &self,
        text: &[Tok],
        from: Option<Point>,
        at: u32,
    ) -> Result<TextTarget, Refusal>
        ensures { Gives (λ target. target) result (target_of evaluated self.now.state.font
            self.now.state.graphics.look self.now.state.graphics.matrix at from text.now) }
    {
        let graphics = self.state.graphics();
        resolve(
            self.state.allocator(),
            text,
            &graphics.look,
            graphics.matrix,
            self.state.font_units(),
            from,
            at,
        )
    }
}

/// Takes a text in parentheses, as it is written, and its `)`. Its `(` stands at that place.
pub(crate) fn written_text(input: &mut Input, at: u32) -> Result<Vec<Tok>, Refusal>
    ensures gives { Gives (λ text. cut text.items input.new.rest) result
        (or_fault (before_char right_parenthesis input.old.rest) Coordinate at) }
    ensures end { OnOk result (input.new.end ≡ input.old.end) }
{
    match input.until(')')? {
        Some(text) => Ok(text),
        None => Err(Refusal::new(Code::Coordinate, at)),
    }
}
