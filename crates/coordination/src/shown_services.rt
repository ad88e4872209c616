//! Services whose history is shown to views.
ghost use Rattle.std.specs.Prelude.{◌≡◌, ◌<◌, All, IfOk, Some, length, map};
ghost use Rattle.resource_lock.specs.AtRest.{IsAtRest};
ghost use Rattle.history_views.specs.Growing.{last_book};
ghost use Rattle.history_views.specs.ShownBooks.{SameHistory};
ghost use Rattle.coordination.specs.Holds.{HoldsNothing};
ghost use Rattle.coordination.specs.Sights.{sights_from, workers_from};

use crate::openings::open_service;
use crate::passes::Pass;
use crate::services::Coordination;
use history_views::{ShownBook, View};
use lock_journal::Book;
use std::alloc::{AllocError, Global};
use std::sync::Wait;
use worker_notes::Offers;

/// A service that shows its history, or was opened without views.
pub type ShownService<O, R> = Coordination<O, ShownBook<R>>;

/// A service that was opened with views, with a pass for each worker in order.
#[derive(Drop)]
pub struct OpenedWithViews<O: Offers, R: Wait + Drop> {
    /// The service.
    pub service: Coordination<O, ShownBook<R>>,
    /// The passes.
    pub passes: Vec<Pass>,
    /// The views.
    pub views: Vec<View>,
}

impl<O: Offers, R: Wait + Drop> Coordination<O, ShownBook<R>> {
    /// A service as `open_with` gives one, with so many views of its history, each of which has seen the book. An entry is shown
    /// before the state lock is free. Where there is no memory to show it, it is taken back, and the call answers `NoMemory`.
    ///
    /// Who shows waits for those that still look at what was shown before: the service keeps `rt` for that. Without views
    /// nothing is shown, and nothing waits.
    pub fn open_with_views(
        alloc: Global,
        rt: R,
        book: Box<Book>,
        offers: O,
        views: u32,
    ) -> Result<OpenedWithViews<O, R>, AllocError>
        requires rest { IsAtRest book.value.state }
        requires whole { book.value.given ≡ 0 }
        ensures book { IfOk result (λ opened. opened.service.book ≡ book.value) }
        ensures passes { IfOk result (λ opened. map (λ p. p.sight) opened.passes.items ≡ sights_from 0 book.value.graph.workers book.value) }
        ensures len { IfOk result (λ opened. length opened.passes.items ≡ book.value.graph.workers) }
        ensures workers { IfOk result (λ opened. map (λ p. p.sight.worker.0) opened.passes.items ≡ workers_from 0 book.value.graph.workers) }
        ensures service { IfOk result (λ opened. All (λ p. p.service ≡ opened.service.service) opened.passes.items) }
        ensures seen { IfOk result (λ opened. All (λ p. p.sight.seen ≡ book.value) opened.passes.items) }
        ensures rest { IfOk result (λ opened. All (λ p. HoldsNothing p.sight) opened.passes.items) }
        ensures views { IfOk result (λ opened. length opened.views.items ≡ views) }
        ensures ledger { IfOk result (λ opened. All (λ v. opened.service.service.ledger ≡ Some v.ledger) opened.views.items) }
        ensures shown { IfOk result (λ opened. All (λ v. SameHistory (last_book v.log) book.value) opened.views.items) }
    {
        let (shown, views) = with_views(alloc, rt, book, views)?;
        let told = shown.reach();
        let (service, passes) = open_service(alloc, shown, offers, &told)?;
        Ok(OpenedWithViews {
            service,
            passes,
            views,
        })
    }
}

// The book, and so many views of it.
fn with_views<R: Wait + Drop>(
    alloc: Global,
    rt: R,
    book: Box<Book>,
    count: u32,
) -> Result<(ShownBook<R>, Vec<View>), AllocError>
    requires { book.value.given ≡ 0 }
    ensures book { IfOk result (λ made. made.0.book ≡ book.value) }
    ensures len { IfOk result (λ made. length made.1.items ≡ count) }
    ensures ledger { IfOk result (λ made. All (λ v. made.0.ledger ≡ Some v.ledger) made.1.items) }
    ensures shown { IfOk result (λ made. All (λ v. SameHistory (last_book v.log) book.value) made.1.items) }
{
    let mut shown = ShownBook::open(alloc, rt, book, count)?;
    let mut views = Vec::with_capacity(alloc, count as usize)?;
    for _ in 0..count {
        let view = shown.view()?;
        views.push(view)?;
    }
    Ok((shown, views))
}
