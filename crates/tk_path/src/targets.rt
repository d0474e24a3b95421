//! What operations go to.

ghost use Rattle.std.specs.Prelude.{◌≡◌, OnOk};
ghost use Rattle.tk_token.specs.Refusals.{Gives};
ghost use Rattle.tk_expand.specs.Unread.{Unread};
ghost use Rattle.tk_keys.specs.State.{env_of};
ghost use Rattle.tk_outline.specs.CurrentPaths.{CurrentPath as ACurrentPath, current_point, reference_point};
ghost use Rattle.tk_path.specs.Targets as spec;
ghost use Rattle.tk_path.specs.Views.{given_to, configuration_of, lookahead_of, reached_at, written_of, target_of};
ghost use Rattle.tk_path.specs.Views.{OnlyPays};
ghost use Rattle.tk_path.specs.Words.{begins_coordinate};
ghost use Rattle.tk_expand.specs.Reading.{is_there as stands_there};

use crate::coordinate::Written;
use crate::drawer::Drawer;
use crate::words::{PathWord, Words};
use tk_expand::{Input, is_there};
use tk_item::Point;
use tk_outline::{CurrentPath, Goal};
use tk_token::{Code, Refusal, Tok};

/// What a line, corner or curve goes to.
#[derive(Drop)]
pub(crate) enum Target {
    Coordinate(Written),
    /// Where its subpath began.
    Start,
}

/// Whether a coordinate begins with a token.
pub(crate) fn begins_coordinate(first: Option<Tok>) -> bool
    ensures { result ≡ stands_there begins_coordinate first }
{
    is_there(first, '(') || is_there(first, '+')
}

impl Drawer {
    /// The point to which the matrix takes the origin.
    pub(crate) fn origin(&self) -> Point
        ensures { result ≡ spec.origin_of (env_of self.now.state) }
    {
        let matrix = &self.state.graphics().matrix;
        Point {
            x: matrix.tx,
            y: matrix.ty,
        }
    }

    /// The current point.
    pub(crate) fn here(&self, path: &CurrentPath) -> Point
        ensures { result ≡ current_point (spec.origin_of (env_of self.now.state)) path.now }
    {
        path.current_point(&self.origin())
    }

    /// The point that relative coordinates start from.
    pub(crate) fn reference(&self, path: &CurrentPath) -> Point
        ensures { result ≡ reference_point (spec.origin_of (env_of self.now.state)) path.now }
    {
        path.reference_point(&self.origin())
    }

    /// The point of a coordinate to which the path goes.
    #[tactic(auto, unfolding(crate::specs::Targets::goal_of))]
    pub(crate) fn goal_of(&mut self, path: &CurrentPath, written: Written) -> Result<Goal, Refusal>
        ensures gives { (rest : Unread) → Gives (λ to. reached_at to self.new path.now rest) result
            (spec.goal_of (given_to self.old) (written_of written)
            (configuration_of self.old path.now rest)) }
        ensures pays { OnOk result (OnlyPays self.old self.new) }
    {
        let leads = written.sign.leads();
        let from = self.reference(path);
        let point = self.coordinate_point(written, from)?;
        Ok(Goal { point, leads })
    }

    /// Reads a coordinate that begins with a token which was taken; a node before it isn't built.
    #[tactic(auto, unfolding(crate::specs::Targets::coordinate_or_node))]
    fn coordinate_or_node(
        &mut self,
        input: &mut Input,
        first: Option<Tok>,
    ) -> Result<Written, Refusal>
        ensures gives { (path : ACurrentPath)
            → Gives (λ written. reached_at (written_of written) self.new path input.new) result
            (spec.coordinate_or_node (given_to self.old)
            (lookahead_of first self.old path input.old)) }
        ensures pays { OnOk result (OnlyPays self.old self.new) }
    {
        if begins_coordinate(first) {
            return self.coordinate_from(input, first);
        }
        let at = input.place(first);
        self.word_from(input, Words::Nodes, first)?;
        Err(Refusal::new(Code::Unbuilt, at))
    }

    /// The point of the coordinate that is next.
    #[tactic(auto, unfolding(crate::specs::Targets::goal_ahead))]
    pub(crate) fn goal_ahead(
        &mut self,
        input: &mut Input,
        path: &CurrentPath,
    ) -> Result<Goal, Refusal>
        ensures gives { Gives (λ to. reached_at to self.new path.now input.new) result
            (spec.goal_ahead (given_to self.old) (configuration_of self.old path.now input.old)) }
        ensures pays { OnOk result (OnlyPays self.old self.new) }
    {
        let first = self.ahead(input)?;
        let written = self.coordinate_or_node(input, first)?;
        self.goal_of(path, written)
    }

    /// Reads the target that is next.
    #[tactic(auto, unfolding(crate::specs::Targets::target_ahead))]
    pub(crate) fn target_ahead(&mut self, input: &mut Input) -> Result<Target, Refusal>
        ensures gives { (path : ACurrentPath)
            → Gives (λ target. reached_at (target_of target) self.new path input.new) result
            (spec.target_ahead (given_to self.old) (configuration_of self.old path input.old)) }
        ensures pays { OnOk result (OnlyPays self.old self.new) }
    {
        let first = self.ahead(input)?;
        if begins_coordinate(first) {
            return Ok(Target::Coordinate(self.coordinate_from(input, first)?));
        }
        let at = input.place(first);
        match self.word_from(input, Words::Targets, first)? {
            PathWord::Cycle => Ok(Target::Start),
            _ => Err(Refusal::new(Code::Unbuilt, at)),
        }
    }
}
