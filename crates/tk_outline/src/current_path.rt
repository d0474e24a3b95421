//! The path that is being read.

ghost use Rattle.std.specs.Prelude.{◌≡◌, ◌∷◌, [], None, Ok, OnOk, IfOk, MatchOption, IfSome, slice_get, length, ◌-◌};
ghost use Rattle.tk_svg.specs.Fitting.{BeginsWithMove};
ghost use Rattle.tk_token.specs.Refusals.{Gives};
ghost use Rattle.tk_token.specs.Answers.{◌>>=◌ as ◌followed_by◌};
ghost use Rattle.tk_geom.specs.Arcs.{arc_pieces};
ghost use Rattle.tk_outline.specs.CurrentPaths as spec;
ghost use Rattle.tk_outline.specs.Meshes.{meshed, mesh_drawn};
ghost use Rattle.tk_outline.specs.Tracing.{BeginsOrNone, Draws};

use crate::measures::Sweep;
use std::alloc::{AllocError, Global};
use std::marker::Model;
use std::mem;
use tk_affine::{AffFault, Matrix};
use tk_expand::Units;
use tk_geom::{push_arc, push_circle, push_grid, push_rectangle};
use tk_item::{Point, Seg, Segs};
use tk_num::Scaled;
use tk_token::Refusal;

/// A point for a path to go to, and whether the reference point goes there too.
#[derive(Clone, Copy)]
pub struct Goal {
    pub point: Point,
    pub leads: bool,
}

/// The steps of a grid as lengths, and the matrix that takes it.
#[derive(Clone, Copy)]
pub struct Mesh {
    pub matrix: Matrix,
    pub xstep: Scaled,
    pub ystep: Scaled,
}

/// The path that is being read: its pieces so far, the current point and the point that relative coordinates start
/// from, once there are such, and where the subpath began that goes on, if one does. The first piece is a `Move`.
#[derive(Drop)]
pub struct CurrentPath {
    segs: Segs,
    current: Option<Point>,
    reference: Option<Point>,
    start: Option<Point>,
}

impl Model for CurrentPath {
    ghost use Rattle.tk_outline.specs.CurrentPaths.{CurrentPath};
    ghost use Rattle.tk_outline.specs.Tracing.{IsTraced};

    ghost Value = { CurrentPath };

    ghost view = { λ p. record { segs = p.segs; current = p.current; reference = p.reference; start = p.start } };

    ghost invariant = { λ p. IsTraced p.segs p.start };
}

impl CurrentPath {
    /// No piece, and no point yet.
    pub fn new(alloc: Global) -> CurrentPath
        ensures { result ≡ spec.no_path }
    {
        CurrentPath {
            segs: Segs::new(alloc),
            current: None,
            reference: None,
            start: None,
        }
    }

    /// The current point, which is the origin before any coordinate.
    pub fn current_point(&self, origin: &Point) -> Point
        ensures { result ≡ spec.current_point origin.now self.now }
    {
        self.current.unwrap_or(*origin)
    }

    /// The point that relative coordinates start from.
    pub fn reference_point(&self, origin: &Point) -> Point
        ensures { result ≡ spec.reference_point origin.now self.now }
    {
        self.reference.unwrap_or(*origin)
    }

    /// Where the subpath begins to which a piece is added.
    pub fn subpath_start(&self, origin: &Point) -> Point
        ensures { result ≡ spec.subpath_start origin.now self.now }
    {
        self.start.unwrap_or(self.current_point(origin))
    }

    /// Has both points stay where they are from now on.
    pub fn ground(&mut self, origin: &Point)
        ensures { self.new ≡ spec.grounded origin.now self.old }
    {
        self.current = Some(self.current_point(origin));
        self.reference = Some(self.reference_point(origin));
    }

    /// Stands at a goal.
    pub fn stand(&mut self, origin: &Point, to: &Goal)
        ensures { self.new ≡ spec.standing_at origin.now to.now self.old }
    {
        let reference = if to.leads {
            to.point
        } else {
            self.reference_point(origin)
        };
        self.current = Some(to.point);
        self.reference = Some(reference);
    }

    /// Moves to a goal; a subpath begins there once a piece follows.
    pub fn move_to(&mut self, origin: &Point, to: &Goal)
        ensures { self.new ≡ spec.moved_to origin.now to.now self.old }
    {
        self.stand(origin, to);
        self.start = None;
    }

    /// Has a piece follow: where no subpath goes on, one begins at the current point.
    pub fn begin(&mut self, origin: &Point) -> Result<(), AllocError>
        ensures path { OnOk result (self.new ≡ spec.in_subpath origin.now self.old) }
        ensures begins { OnOk result (BeginsWithMove self.new.segs) }
    {
        if self.start.is_some() {
            return Ok(());
        }
        self.ground(origin);
        let start = self.current_point(origin);
        self.segs.push(Seg::Move(start))?;
        self.start = Some(self.current_point(origin));
        Ok(())
    }

    /// Adds a piece, once one may follow.
    pub fn add(&mut self, piece: Seg) -> Result<(), AllocError>
        requires { BeginsWithMove self.old.segs }
        ensures path { OnOk result (self.new ≡ spec.with_pieces (piece ∷ []) self.old) }
        ensures begins { OnOk result (BeginsWithMove self.new.segs) }
    {
        self.segs.push(piece)
    }

    /// Closes the subpath that goes on.
    pub fn close(&mut self) -> Result<(), AllocError>
        requires { BeginsWithMove self.old.segs }
        ensures { OnOk result (self.new ≡ spec.with_close self.old) }
    {
        self.segs.push(Seg::Close)?;
        self.current = self.start;
        self.reference = self.start;
        self.start = None;
        Ok(())
    }

    /// The pieces so far, which are taken from the path.
    fn take_segs(&mut self, alloc: Global) -> Segs
        ensures segs { result ≡ self.old.segs }
        ensures path { self.new ≡ record self.old { segs = []; start = None } }
        ensures first { BeginsOrNone result }
    {
        self.start = None;
        mem::replace(&mut self.segs, Segs::new(alloc))
    }

    /// Adds an ellipse with those radii round the current point. Behind a fault nothing is said of the path.
    pub fn circle(
        &mut self,
        alloc: Global,
        origin: &Point,
        matrix: Matrix,
        rx: Scaled,
        ry: Scaled,
    ) -> Result<Result<(), AffFault>, AllocError>
        ensures { IfOk result
            (λ done. Draws self.new done (spec.circled origin.now matrix rx ry self.old)) }
    {
        let centre = self.current_point(origin);
        self.ground(origin);
        let mut segs = self.take_segs(alloc);
        let done = push_circle(&mut segs, matrix, centre, rx, ry)?;
        if done.is_ok() {
            self.segs = segs;
        }
        Ok(done)
    }

    /// Adds a rectangle from the current point to a goal. Behind a fault nothing is said of the path.
    pub fn rectangle(
        &mut self,
        alloc: Global,
        origin: &Point,
        matrix: Matrix,
        to: &Goal,
    ) -> Result<Result<(), AffFault>, AllocError>
        ensures { IfOk result
            (λ done. Draws self.new done (spec.boxed origin.now matrix to.now self.old)) }
    {
        let corner = self.current_point(origin);
        self.move_to(origin, to);
        let mut segs = self.take_segs(alloc);
        let done = push_rectangle(&mut segs, matrix, corner, to.point)?;
        if done.is_ok() {
            self.segs = segs;
        }
        Ok(done)
    }

    /// Adds an arc from the current point, between those angles. Behind a fault nothing is said of the path.
    pub fn arc(
        &mut self,
        origin: &Point,
        matrix: Matrix,
        sweep: &Sweep,
        rx: Scaled,
        ry: Scaled,
    ) -> Result<Result<(), AffFault>, AllocError>
        ensures { IfOk result
            (λ done. Draws self.new done (spec.arced origin.now matrix sweep.now rx ry self.old)) }
    {
        if sweep.from == sweep.to {
            self.ground(origin);
            return Ok(Ok(()));
        }
        self.begin(origin)?;
        self.add_arc(origin, matrix, sweep, rx, ry)
    }

    /// Adds the curves of an arc from the current point, once pieces may follow, and stands at their end. Behind a
    /// fault nothing is said of the path.
    fn add_arc(
        &mut self,
        origin: &Point,
        matrix: Matrix,
        sweep: &Sweep,
        rx: Scaled,
        ry: Scaled,
    ) -> Result<Result<(), AffFault>, AllocError>
        requires { BeginsWithMove self.old.segs }
        ensures { IfOk result (λ done. Draws self.new done
            (arc_pieces matrix
            (spec.current_point origin.now self.old) sweep.now.from sweep.now.to rx ry
            followed_by (λ segs. Ok (spec.along_curves origin.now segs self.old)))) }
    {
        let count = self.segs.as_slice().len();
        let begin = self.current_point(origin);
        let done = push_arc(&mut self.segs, matrix, begin, sweep.from, sweep.to, rx, ry)?;
        if done.is_ok() {
            let end = self.last_end(origin, self.segs.as_slice().get(count..).unwrap_or(&[]));
            self.stand(
                origin,
                &Goal {
                    point: end,
                    leads: true,
                },
            );
        }
        Ok(done)
    }

    /// Where the last of curves ends, the first of which begins at the current point.
    fn last_end(&self, origin: &Point, segs: &[Seg]) -> Point
        ensures { result ≡ spec.end_of_curve (spec.current_point origin.now self.now)
            (slice_get segs.now (length segs.now - 1)) }
    {
        match segs.last() {
            Some(Seg::Curve(_, _, end)) => *end,
            _ => self.current_point(origin),
        }
    }

    /// Adds a grid with those steps from the current point to a goal; each line is paid for.
    pub fn grid(
        &mut self,
        alloc: Global,
        origin: &Point,
        mesh: &Mesh,
        to: &Goal,
        units: &mut Units,
        at: u32,
    ) -> Result<(), Refusal>
        ensures gives { Gives (λ _. meshed self.new units.new.used) result
            (mesh_drawn origin.now mesh.now to.now units.old.budget at units.old.used self.old) }
        ensures budget { units.new.budget ≡ units.old.budget }
    {
        let corner = self.current_point(origin);
        self.move_to(origin, to);
        let mut segs = self.take_segs(alloc);
        let Mesh {
            matrix,
            xstep,
            ystep,
        } = *mesh;
        push_grid(&mut segs, matrix, corner, to.point, xstep, ystep, units, at)?;
        self.segs = segs;
        Ok(())
    }

    /// The pieces; None where there are none.
    pub fn into_segs(self) -> Option<Segs>
        ensures pieces { MatchOption result (self.segs ≡ []) (λ segs. segs ≡ self.segs) }
        ensures begins { IfSome result BeginsWithMove }
    {
        if self.segs.as_slice().is_empty() {
            None
        } else {
            Some(self.segs)
        }
    }
}
