//! One cut.

ghost use Rattle.std.specs.Prelude.{◌≡◌, ◌+◌, ◌++◌, ◌*◌, ◌≤◌, ◌<◌, [], length, map, vec_capacity};
ghost use Rattle.std.specs.Prelude.{IfSome, MatchOption};
ghost use Rattle.nit_damage.specs.Terms.{FitsJobs, HasPixels, IsCut, IsCutStep, IsJob, IsPieceOf};
ghost use Rattle.nit_damage.specs.Terms.{IsScreenRectangle, IsSkip, Point, job_at, jobs_to_come};
ghost use Rattle.nit_damage.specs.Terms.{piece_times, weight, with_pixels};

use crate::rest::rest_of;
use nit_rect::Rect;
use nit_stack::{Piece, Stack};

/// A rectangle of the screen with pixels, from which the views in front of place `at` are cut out
/// already.
#[derive(Clone, Copy)]
pub struct Job {
    pub rect: Rect,
    pub at: u32,
}

/// The next piece below the bar. None exactly where nothing below the bar is to come.
pub(crate) fn next_cut(jobs: &mut Vec<Job>, from: u32, stack: &Stack) -> Option<Piece>
    requires fits { FitsJobs stack.now jobs.old.items }
    requires room { 3 * length stack.now.views + 5 ≤ vec_capacity jobs.old }
    ensures room { vec_capacity jobs.new ≡ vec_capacity jobs.old }
    ensures fits { FitsJobs stack.now jobs.new.items }
    ensures count { (p : Point) → jobs_to_come from stack.now jobs.old.items p
        ≡ jobs_to_come from stack.now jobs.new.items p + piece_times result p }
    ensures piece { MatchOption result (jobs.new.items ≡ []) (IsPieceOf stack.now) }
    ensures fewer { IfSome result (λ _. weight (length stack.now.views) jobs.new.items
        < weight (length stack.now.views) jobs.old.items) }
{
    'jobs: while let Some(job) = jobs.pop() {
        let piece = cut_next(jobs, job, from, stack);
        if piece.is_some() {
            return piece;
        }
    }
    None
}

/// Cuts the next view out of the job, and puts in what is left. Gives the part that was cut out,
/// where its view is at place `from` or behind. Behind the last view the whole job is given.
pub(crate) fn cut_next(jobs: &mut Vec<Job>, job: Job, from: u32, stack: &Stack) -> Option<Piece>
    requires fits { FitsJobs stack.now jobs.old.items }
    requires job { IsJob stack.now (length jobs.old.items) job }
    requires room { 3 * length stack.now.views + 5 ≤ vec_capacity jobs.old }
    ensures room { vec_capacity jobs.new ≡ vec_capacity jobs.old }
    ensures step { IsCutStep from stack.now job jobs.old.items jobs.new.items result }
{
    let job = skip_apart(job, stack);
    if job.at >= stack.len() {
        return Some(Piece {
            rect: job.rect,
            owner: None,
        });
    }
    let v = stack.at(job.at);
    let Some(part) = cut_out(jobs, job.rect, stack.rect(v), job.at + 1) else {
        return None;
    };
    if job.at < from {
        return None;
    }
    Some(Piece {
        rect: part,
        owner: Some(v),
    })
}

/// The rectangle with its next view at the first place, from where it was, whose view has a pixel
/// in common with it, or behind the last view.
fn skip_apart(job: Job, stack: &Stack) -> Job
    ensures { IsSkip stack.now job result }
{
    let mut job = job;
    'views: while job.at < stack.len() {
        if !job.rect.is_apart(&stack.rect(stack.at(job.at))) {
            return job;
        }
        job.at += 1;
    }
    job
}

/// Puts in what is left of a rectangle of the screen where another is cut out, with the next view
/// at place `at`. Gives the part that was cut out. None where the two have no pixel in common.
pub(crate) fn cut_out(jobs: &mut Vec<Job>, rect: Rect, by: Rect, at: u32) -> Option<Rect>
    requires screen { HasPixels rect → IsScreenRectangle rect }
    requires room { length jobs.old.items + 4 ≤ vec_capacity jobs.old }
    ensures room { vec_capacity jobs.new ≡ vec_capacity jobs.old }
    ensures cut { IsCut at rect by jobs.old.items jobs.new.items result }
{
    let part = rect.meet(&by);
    if part.area() == 0 {
        put_in(jobs, rect, at);
        return None;
    }
    let rest = rest_of(&rect, &part);
    put_in(jobs, rest.bottom, at);
    put_in(jobs, rest.right, at);
    put_in(jobs, rest.left, at);
    put_in(jobs, rest.top, at);
    Some(part)
}

/// Puts in a rectangle with the next view at place `at`, where it has pixels.
pub(crate) fn put_in(jobs: &mut Vec<Job>, rect: Rect, at: u32)
    requires room { length jobs.old.items < vec_capacity jobs.old }
    ensures room { vec_capacity jobs.new ≡ vec_capacity jobs.old }
    ensures items { jobs.new.items ≡ jobs.old.items ++ map (job_at at) (with_pixels rect) }
    ensures one { length jobs.new.items ≤ length jobs.old.items + 1 }
{
    if rect.area() == 0 {
        return;
    }
    jobs.push_reserved(Job { rect, at });
}
