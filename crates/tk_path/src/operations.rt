//! The operations of a path.

ghost use Rattle.std.specs.Prelude.{◌≡◌, OnOk, codes, Ok, ◌∷◌, [], ◌≤◌, length};
ghost use Rattle.tk_token.specs.Refusals.{Gives};
ghost use Rattle.tk_expand.specs.Unread.{Unread};
ghost use Rattle.tk_svg.specs.Fitting.{BeginsWithMove};
ghost use Rattle.tk_keys.specs.State.{env_of};
ghost use Rattle.tk_outline.specs.CurrentPaths.{CurrentPath as ACurrentPath, in_subpath, with_pieces};
ghost use Rattle.tk_path.specs.Operations as spec;
ghost use Rattle.tk_path.specs.Operations.{Cornered};
ghost use Rattle.tk_path.specs.Targets.{A_coordinate, The_start, origin_of};
ghost use Rattle.tk_path.specs.Words.{past_word};
ghost use Rattle.tk_path.specs.Views.{given_to, configuration_of, lookahead_of, reached_at, written_of, target_of};
ghost use Rattle.tk_path.specs.Views.{control_of, way_of, OnlyPays, KeepsDrawn};
ghost use Rattle.tk_path.specs.Undoing.{most_steps};

use crate::coordinate::{Sign, Written};
use crate::drawer::Drawer;
use crate::targets::Target;
use crate::words::{PathWord, Words};
use std::sync::ledger::Ledger;
use tk_coord::{CornerSign, corner_between};
use tk_expand::Input;
use tk_item::{Point, Seg};
use tk_outline::{CurrentPath, Goal};
use tk_store::Steps;
use tk_token::{Code, Refusal, Tok};

/// The second control point of a curve.
#[derive(Drop)]
pub(crate) enum Control {
    Known(Point),
    /// It starts from the end of the curve, and is found once that is known.
    FromEnd(Written),
}

/// How an operation gets from one point to another.
#[derive(Drop)]
pub(crate) enum Way {
    Straight,
    /// Round a corner, whose sign stands at a place.
    Cornered(CornerSign, u32),
    /// Along a curve by its control points.
    Curved(Point, Control),
}

impl Drawer {
    /// Draws the operation whose word stands at that place and was read; nodes and loops aren't built.
    #[tactic(auto, unfolding(crate::specs::Operations::operation))]
    pub(crate) fn operation<L: Ledger>(
        &mut self,
        input: &mut Input,
        path: &mut CurrentPath,
        word: PathWord,
        at: u32,
        steps: &mut Steps<L>,
    ) -> Result<(), Refusal>
        ensures gives { Gives (λ _. configuration_of self.new path.new input.new) result
            (spec.operation (given_to self.old) word at
            (configuration_of self.old path.old input.old)) }
        ensures kept { OnOk result (KeepsDrawn self.old self.new) }
        ensures high { steps.new ≤ most_steps steps.old self.old (length input.old.rest) }
        ensures most { OnOk result (most_steps steps.new self.new (length input.new.rest)
            ≤ most_steps steps.old self.old (length input.old.rest)) }
    {
        match word {
            PathWord::Line => self.go(input, path, Way::Straight),
            PathWord::AcrossThenUp => {
                self.go(input, path, Way::Cornered(CornerSign::HorizontalFirst, at))
            }
            PathWord::UpThenAcross => {
                self.go(input, path, Way::Cornered(CornerSign::VerticalFirst, at))
            }
            PathWord::Dots => self.curve(input, path),
            PathWord::To => self.to(input, path, steps),
            PathWord::Rectangle => self.rectangle(input, path, at),
            PathWord::Circle => self.circle(input, path, at, steps),
            PathWord::Arc => self.arc(input, path, at, steps),
            PathWord::Grid => self.grid(input, path, at, steps),
            _ => Err(Refusal::new(Code::Unbuilt, at)),
        }
    }

    /// Draws a straight line with options of its own, which leave nothing.
    #[tactic(auto, unfolding(crate::specs::Operations::to))]
    fn to<L: Ledger>(
        &mut self,
        input: &mut Input,
        path: &mut CurrentPath,
        steps: &mut Steps<L>,
    ) -> Result<(), Refusal>
        ensures gives { Gives (λ _. configuration_of self.new path.new input.new) result
            (spec.to (given_to self.old) (configuration_of self.old path.old input.old)) }
        ensures kept { OnOk result (KeepsDrawn self.old self.new) }
        ensures high { steps.new ≤ most_steps steps.old self.old (length input.old.rest) }
        ensures most { OnOk result (most_steps steps.new self.new (length input.new.rest)
            ≤ most_steps steps.old self.old (length input.old.rest)) }
    {
        let first = self.ahead(input)?;
        self.measures_from(input, first, steps)?;
        self.go(input, path, Way::Straight)
    }

    /// Draws a way to the target that is next.
    #[tactic(auto, unfolding(crate::specs::Operations::goes))]
    fn go(&mut self, input: &mut Input, path: &mut CurrentPath, way: Way) -> Result<(), Refusal>
        ensures gives { Gives (λ _. configuration_of self.new path.new input.new) result
            (spec.goes (given_to self.old) (way_of way)
            (configuration_of self.old path.old input.old)) }
        ensures pays { OnOk result (OnlyPays self.old self.new) }
    {
        match self.target_ahead(input)? {
            Target::Coordinate(written) => self.go_to(path, way, written),
            Target::Start => self.go_back(path, way),
        }
    }

    /// Draws a way to a coordinate.
    #[tactic(auto, unfolding(crate::specs::Operations::way_to))]
    fn go_to(&mut self, path: &mut CurrentPath, way: Way, written: Written) -> Result<(), Refusal>
        ensures gives { (rest : Unread) → Gives
            (λ _. configuration_of self.new path.new rest) result
            (spec.way_to (given_to self.old) (way_of way) (A_coordinate (written_of written))
            (configuration_of self.old path.old rest)) }
        ensures pays { OnOk result (OnlyPays self.old self.new) }
    {
        let origin = self.origin();
        let end = self.goal_of(path, written)?;
        self.draw_way(path, way, end.point)?;
        path.stand(&origin, &end);
        Ok(())
    }

    /// Draws a way back to where the subpath began, and closes it.
    #[tactic(auto, unfolding(crate::specs::Operations::way_to))]
    fn go_back(&mut self, path: &mut CurrentPath, way: Way) -> Result<(), Refusal>
        ensures gives { (rest : Unread) → Gives
            (λ _. configuration_of self.new path.new rest) result
            (spec.way_to (given_to self.old) (way_of way) The_start
            (configuration_of self.old path.old rest)) }
        ensures pays { OnOk result (OnlyPays self.old self.new) }
    {
        let origin = self.origin();
        match way {
            Way::Straight => path.begin(&origin)?,
            way => {
                let start = path.subpath_start(&origin);
                self.draw_way(path, way, start)?;
            }
        }
        Ok(path.close()?)
    }

    /// Draws a way from the current point to another.
    #[tactic(auto, unfolding(crate::specs::Operations::way_drawn))]
    fn draw_way(&mut self, path: &mut CurrentPath, way: Way, end: Point) -> Result<(), Refusal>
        ensures gives { (rest : Unread) → Gives
            (λ _. configuration_of self.new path.new rest) result
            (spec.way_drawn (given_to self.old) (way_of way) end
            (configuration_of self.old path.old rest)) }
        ensures begins { OnOk result (BeginsWithMove path.new.segs) }
        ensures pays { OnOk result (OnlyPays self.old self.new) }
    {
        match way {
            Way::Straight => self.draw(path, Seg::Line(end)),
            Way::Cornered(sign, at) => self.draw_corner(path, sign, at, end),
            Way::Curved(first, second) => {
                let second = self.control_point(&end, second)?;
                self.draw(path, Seg::Curve(first, second, end))
            }
        }
    }

    /// Draws a corner from the current point to another; its sign stands at that place.
    #[tactic(auto, unfolding(crate::specs::Operations::way_drawn))]
    fn draw_corner(
        &self,
        path: &mut CurrentPath,
        sign: CornerSign,
        at: u32,
        end: Point,
    ) -> Result<(), Refusal>
        ensures gives { (rest : Unread) → Gives
            (λ _. configuration_of self.now path.new rest) result
            (spec.way_drawn (given_to self.now) (Cornered sign at) end
            (configuration_of self.now path.old rest)) }
        ensures begins { OnOk result (BeginsWithMove path.new.segs) }
    {
        let corner = corner_between(sign, self.state.graphics().matrix, self.here(path), end, at)?;
        self.draw(path, Seg::Line(corner))?;
        Ok(path.add(Seg::Line(end))?)
    }

    /// Draws a piece that follows on the path.
    fn draw(&self, path: &mut CurrentPath, piece: Seg) -> Result<(), Refusal>
        ensures path { Gives (λ _. path.new) result
            (Ok (with_pieces (piece ∷ [])
            (in_subpath (origin_of (env_of self.now.state)) path.old))) }
        ensures begins { OnOk result (BeginsWithMove path.new.segs) }
    {
        path.begin(&self.origin())?;
        Ok(path.add(piece)?)
    }

    // ---- curves

    /// Where the second control point is, of a curve that ends at that point.
    #[tactic(auto, unfolding(crate::specs::Operations::control_point))]
    fn control_point(&mut self, end: &Point, control: Control) -> Result<Point, Refusal>
        ensures gives { (path : ACurrentPath) (rest : Unread)
            → Gives (λ point. reached_at point self.new path rest) result
            (spec.control_point (given_to self.old) end.now (control_of control)
            (configuration_of self.old path rest)) }
        ensures pays { OnOk result (OnlyPays self.old self.new) }
    {
        match control {
            Control::Known(point) => Ok(point),
            Control::FromEnd(written) => self.coordinate_point(written, *end),
        }
    }

    /// Reads a control point that is next.
    #[tactic(auto, unfolding(crate::specs::Operations::control_ahead))]
    fn control_ahead(&mut self, input: &mut Input) -> Result<Written, Refusal>
        ensures gives { (path : ACurrentPath)
            → Gives (λ written. reached_at (written_of written) self.new path input.new) result
            (spec.control_ahead (given_to self.old) (configuration_of self.old path input.old)) }
        ensures pays { OnOk result (OnlyPays self.old self.new) }
    {
        let first = self.ahead(input)?;
        self.coordinate_from(input, first)
    }

    /// The second control point: one with a sign starts from the end of the curve.
    fn second_control(&mut self, path: &CurrentPath, written: Written) -> Result<Control, Refusal>
        ensures gives { (rest : Unread)
            → Gives (λ control. reached_at (control_of control) self.new path.now rest) result
            (spec.second_control (given_to self.old) (written_of written) written.sign
            (configuration_of self.old path.now rest)) }
        ensures pays { OnOk result (OnlyPays self.old self.new) }
    {
        match written.sign {
            Sign::Absolute => {
                let from = self.reference(path);
                Ok(Control::Known(self.coordinate_point(written, from)?))
            }
            Sign::Relative | Sign::Leading => Ok(Control::FromEnd(written)),
        }
    }

    /// The way of a curve whose first control point is known, and the word behind it.
    fn curve_behind(
        &mut self,
        input: &mut Input,
        path: &CurrentPath,
        first: Point,
        word: PathWord,
    ) -> Result<Way, Refusal>
        ensures gives { Gives (λ way. reached_at (way_of way) self.new path.now input.new) result
            (spec.curve_behind (given_to self.old) first word
            (configuration_of self.old path.now input.old)) }
        ensures pays { OnOk result (OnlyPays self.old self.new) }
    {
        match word {
            PathWord::And => {
                let written = self.control_ahead(input)?;
                let second = self.second_control(path, written)?;
                self.expect_word(input, '.', b".")?;
                Ok(Way::Curved(first, second))
            }
            _ => {
                let Point { x, y } = first;
                let second = Control::Known(Point { x, y });
                Ok(Way::Curved(Point { x, y }, second))
            }
        }
    }

    /// Draws a curve, whose first `..` was read.
    #[tactic(auto, unfolding(crate::specs::Operations::curve))]
    fn curve(&mut self, input: &mut Input, path: &mut CurrentPath) -> Result<(), Refusal>
        ensures gives { Gives (λ _. configuration_of self.new path.new input.new) result
            (spec.curve (given_to self.old) (configuration_of self.old path.old input.old)) }
        ensures pays { OnOk result (OnlyPays self.old self.new) }
    {
        let way = self.curve_way(input, path)?;
        self.go(input, path, way)
    }

    /// Reads `controls`, with the Spaces before it.
    fn expect_controls(&mut self, input: &mut Input) -> Result<(), Refusal>
        ensures gives { (path : ACurrentPath) → Gives
            (λ _. configuration_of self.new path input.new) result
            (past_word (given_to self.old) (codes "controls")
            (configuration_of self.old path input.old)) }
        ensures pays { OnOk result (OnlyPays self.old self.new) }
    {
        self.expect_word(input, 'c', b"ontrols")
    }

    /// The first control point of a curve, whose first `..` was read.
    #[tactic(auto, unfolding(crate::specs::Operations::first_control))]
    fn first_control(&mut self, input: &mut Input, path: &CurrentPath) -> Result<Point, Refusal>
        ensures gives { Gives (λ point. reached_at point self.new path.now input.new) result
            (spec.first_control (given_to self.old)
            (configuration_of self.old path.now input.old)) }
        ensures pays { OnOk result (OnlyPays self.old self.new) }
    {
        self.expect_controls(input)?;
        let written = self.control_ahead(input)?;
        let from = self.reference(path);
        self.coordinate_point(written, from)
    }

    /// The control points of a curve, whose first `..` was read, with the `..` behind them.
    #[tactic(auto, unfolding(crate::specs::Operations::curve_way))]
    fn curve_way(&mut self, input: &mut Input, path: &CurrentPath) -> Result<Way, Refusal>
        ensures gives { Gives (λ way. reached_at (way_of way) self.new path.now input.new) result
            (spec.curve_way (given_to self.old) (configuration_of self.old path.now input.old)) }
        ensures pays { OnOk result (OnlyPays self.old self.new) }
    {
        let first = self.first_control(input, path)?;
        let word = self.word_ahead(input, Words::Controls)?;
        self.curve_behind(input, path, first, word)
    }
}
