//! What a client has seen of the book, and its calls.
ghost use Rattle.std.specs.Prelude.{◌≡◌, ◌++◌, ◌∷◌, [], None, Some, false, length, ◌<◌, ◌⊎◌, OnOk, OnErr, IfOk, IfErr};
ghost use mathlib.Core.List.{IsPrefix};
ghost use Rattle.rambo_run.specs.Runs.{run};
ghost use Rattle.rambo_run.specs.Steps.{meant_in, refusal, turn};
ghost use Rattle.rambo_node.specs.Acts.{name_in};
ghost use Rattle.rambo_book.specs.Readying.{IsReadyFor};
ghost use Rattle.rambo_book.specs.Kept.{IsServedBy, Told, state};
ghost use Rattle.rambo_book.specs.Windows.{delivers_gone, gone_of, refused_in};
ghost use Rattle.rambo_run.specs.Legal.{IsLegal};
ghost use Rattle.rambo_pass.specs.Passes.{mine_with, IsHalf, IsRefusedHalf, PassView};
ghost use Rattle.rambo_node.specs.Steps.{Step};

use crate::mine::{Entry, Mine};
use rambo_book::{Book, Keeper, Ready, Terms, commit, commit_ready, may_commit};
use rambo_history::{CallId, Op};
use rambo_names::{Name, Quorums, Refusal};
use rambo_node::Effect;
use rambo_roll::Front;
use rambo_run::{Step, StepOf};
use rambo_tag::Replica;
use std::alloc::Global;
use std::marker::Model;

/// What one client has seen of the steps, and its own calls in them.
pub struct Pass<J: Terms<Q>, Q: Quorums> {
    pub(crate) seen: Front<J, Step<Q>>,
    pub(crate) count: usize,
    pub(crate) mine: Mine,
}

impl<J: Terms<Q>, Q: Quorums> Drop for Pass<J, Q> {
    fn drop(self) {
        let Pass {
            seen: _seen,
            count: _count,
            mine: _mine,
        } = self;
    }
}

impl<J: Terms<Q>, Q: Quorums> Model for Pass<J, Q> {
    ghost use Rattle.std.specs.Prelude.{◌≡◌, length};
    ghost use Rattle.std.specs.Coded.{codes};
    ghost use Rattle.rambo_names.specs.Names.{names_code};
    ghost use Rattle.rambo_pass.specs.Passes.{PassView};

    ghost Value = { PassView Q };

    ghost coded = { Prim.hlevel (codes, names_code, Q.code) };

    ghost view = { λ p. record { seen = p.seen; mine = p.mine.entries } };

    ghost invariant = { λ p. p.count ≡ length p.seen };
}

impl<J: Terms<Q>, Q: Quorums> Pass<J, Q> {
    /// A pass of a book that has seen nothing and made no call. It allocates nothing.
    ///
    /// `NoPassLeft` where 32 were given.
    pub fn new(alloc: Global, book: &mut Book<J, Q>) -> Result<Pass<J, Q>, Refusal>
        ensures book { book.new ≡ book.old }
        ensures pass { IfOk result (λ p. p ≡ record { seen = []; mine = [] }) }
        ensures refused { IfErr result (λ r. r ≡ Refusal.NoPassLeft) }
    {
        book.count_pass()?;
        Ok(Pass {
            seen: book.nothing(),
            count: 0,
            mine: Mine::new(alloc),
        })
    }

    /// How many steps it has seen.
    pub fn count(&self) -> usize
        ensures { result ≡ length self.now.seen }
    {
        self.count
    }

    /// What it has seen begins the steps of the book.
    pub fn begins(&mut self, book: &mut Book<J, Q>)
        ensures book { book.new ≡ book.old }
        ensures pass { self.new ≡ self.old }
        ensures begins { IsPrefix self.old.seen book.old.steps }
    {
        book.begun(&mut self.seen);
    }

    // It has seen all steps of the book from now on.
    pub(crate) fn see_all(&mut self, book: &mut Book<J, Q>)
        ensures book { book.new ≡ book.old }
        ensures pass { self.new ≡ record { seen = book.old.steps; mine = self.old.mine } }
        ensures begins { IsPrefix self.old.seen book.old.steps }
    {
        self.count = book.show(&mut self.seen);
    }

    // It sees what `from` has seen.
    fn copy(&mut self, book: &Book<J, Q>, from: &mut Pass<J, Q>)
        ensures from { from.new ≡ from.old }
        ensures to { self.new ≡ record { seen = from.old.seen; mine = self.old.mine } }
    {
        self.seen = book.again(&mut from.seen);
        self.count = from.count;
    }
}

// One entry more where the step was a call. There has to be room for it.
fn note_call<Q: Quorums>(mine: &mut Mine, place: usize, effect: &Effect<Q>)
    requires { 0 < mine.old.room }
    ensures { mine.new.entries ≡ mine_with mine.old.entries place effect.now }
{
    if let Effect::Called(id) = effect {
        mine.push_reserved(Entry { place, id: *id });
    }
}

/// Does a step for this client, who has then seen it.
///
/// Refused with 25 exactly where it delivers a letter that is gone, whoever's keeper this is; else with what the rules of the
/// step's kind say, by the least number; else 23 where the book is full; else 22. After 22 the pass is as before; after another
/// number its calls are, and it has seen all steps.
pub fn act_in<J: Terms<Q>, Q: Quorums, S: Replica>(
    book: &mut Book<J, Q>,
    keeper: &mut Keeper<J, Q, S>,
    pass: &mut Pass<J, Q>,
    step: Step<Q>,
) -> Result<Effect<Q>, Refusal>
    requires { delivers_gone (gone_of J.endless J.capacity (state Q.system book.old)) step ≡ false → IsServedBy (state Q.system book.old) step keeper.old.name }
    ensures begins { IsPrefix pass.old.seen pass.new.seen }
    ensures between { IsPrefix pass.old.seen book.old.steps }
    ensures terms { (J.founders ≡ Some book.old.founders) × (book.old.capacity ≡ J.capacity) }
    ensures before { IsLegal Q.system book.old.founders book.old.steps }
    ensures last { OnOk result (pass.new.seen ≡ book.old.steps ++ step ∷ []) }
    ensures legal { OnOk result (IsLegal Q.system book.old.founders pass.new.seen) }
    ensures accepted { OnOk result (refusal Q.system (state Q.system book.old) step ≡ None) }
    ensures there { OnOk result (delivers_gone (gone_of J.endless J.capacity (state Q.system book.old)) step ≡ false) }
    ensures effect { IfOk result (λ e. e ≡ (turn (state Q.system book.old) step).effect) }
    ensures mine { IfOk result (λ e. pass.new.mine ≡ mine_with pass.old.mine (length book.old.steps) e) }
    ensures err { OnErr result (pass.new.mine ≡ pass.old.mine) }
    ensures memory { IfErr result (λ r. r ≡ Refusal.OutOfMemory → pass.new ≡ pass.old) }
    ensures shown { IfErr result (λ r. (r ≡ Refusal.OutOfMemory) ⊎ (pass.new.seen ≡ book.old.steps)) }
    ensures cause { IfErr result (λ r. Told (refused_in Q.system J.endless J.capacity (state Q.system book.old) step) (length book.old.steps) book.old.capacity r) }
{
    let Pass { seen, count, mine } = pass;
    let place = book.begun(seen);
    if let Err(refusal) = may_commit(book, keeper, &step) {
        *count = book.show(seen);
        return Err(refusal);
    }
    let Ok(()) = mine.reserve() else {
        return Err(Refusal::OutOfMemory);
    };
    let Ok(effect) = commit(book, keeper, step) else {
        return Err(Refusal::OutOfMemory);
    };
    *count = book.show(seen);
    note_call(mine, place, &effect);
    Ok(effect)
}

// Why a step is refused whose first half was refused for this cause: 23 where that was out of memory, and the book is
// full.
fn unready<J: Terms<Q>, Q: Quorums, S: Replica>(
    book: &mut Book<J, Q>,
    keeper: &mut Keeper<J, Q, S>,
    cause: Refusal,
) -> Refusal
    ensures same { (book.new ≡ book.old) × (keeper.new ≡ keeper.old) }
    ensures told { (st : Step Q) → name_in (meant_in [] st) ≡ Some keeper.old.name → IsRefusedHalf Q.system J.founders keeper.old st cause → Told (refusal Q.system (state Q.system book.old) st) (length book.old.steps) book.old.capacity result }
{
    book.agree(keeper);
    book.facts();
    keeper.facts();
    match cause {
        Refusal::OutOfMemory => book.no_room(),
        _ => cause,
    }
}

// The second half goes into the book, if the first was made and there is room for one entry more.
fn finish_in<J: Terms<Q>, Q: Quorums, S: Replica>(
    book: &mut Book<J, Q>,
    keeper: &mut Keeper<J, Q, S>,
    mine: &mut Mine,
    ready: Result<Ready<Q>, Refusal>,
) -> Result<Effect<Q>, Refusal>
    requires { IfOk ready (IsReadyFor Q.system J.founders keeper.old) }
    ensures mine { mine.new.entries ≡ mine.old.entries }
    ensures room { OnOk result (0 < mine.new.room) }
    ensures same { OnErr result (book.new ≡ book.old) }
    ensures founders { book.new.founders ≡ book.old.founders }
    ensures book { (st : Step Q) → IsHalf Q.system J.founders keeper.old st ready → OnOk result (book.new.steps ≡ book.old.steps ++ st ∷ []) }
    ensures accepted { (st : Step Q) → IsHalf Q.system J.founders keeper.old st ready → OnOk result (refusal Q.system (state Q.system book.old) st ≡ None) }
    ensures effect { (st : Step Q) → IsHalf Q.system J.founders keeper.old st ready → IfOk result (λ e. e ≡ (turn (state Q.system book.old) st).effect) }
    ensures told { (st : Step Q) → IsHalf Q.system J.founders keeper.old st ready → IfErr result (λ r. Told (refusal Q.system (state Q.system book.old) st) (length book.old.steps) book.old.capacity r) }
{
    let ready = match ready {
        Ok(ready) => ready,
        Err(cause) => return Err(unready(book, keeper, cause)),
    };
    let Ok(()) = mine.reserve() else {
        ready.let_go();
        return Err(unready(book, keeper, Refusal::OutOfMemory));
    };
    commit_ready(book, keeper, ready)
}

/// Does a step for this client, of which the first half was made, or refused, before the book was there; the client has
/// then seen it. The step is any that names the keeper's node.
pub fn act_ready_in<J: Terms<Q>, Q: Quorums, S: Replica>(
    book: &mut Book<J, Q>,
    keeper: &mut Keeper<J, Q, S>,
    pass: &mut Pass<J, Q>,
    ready: Result<Ready<Q>, Refusal>,
) -> Result<Effect<Q>, Refusal>
    requires { IfOk ready (IsReadyFor Q.system J.founders keeper.old) }
    ensures begins { IsPrefix pass.old.seen pass.new.seen }
    ensures between { IsPrefix pass.old.seen book.old.steps }
    ensures terms { (J.founders ≡ Some book.old.founders) × (book.old.capacity ≡ J.capacity) }
    ensures before { IsLegal Q.system book.old.founders book.old.steps }
    ensures last { (st : Step Q) → IsHalf Q.system J.founders keeper.old st ready → OnOk result (pass.new.seen ≡ book.old.steps ++ st ∷ []) }
    ensures legal { OnOk result (IsLegal Q.system book.old.founders pass.new.seen) }
    ensures accepted { (st : Step Q) → IsHalf Q.system J.founders keeper.old st ready → OnOk result (refusal Q.system (state Q.system book.old) st ≡ None) }
    ensures effect { (st : Step Q) → IsHalf Q.system J.founders keeper.old st ready → IfOk result (λ e. e ≡ (turn (state Q.system book.old) st).effect) }
    ensures mine { IfOk result (λ e. pass.new.mine ≡ mine_with pass.old.mine (length book.old.steps) e) }
    ensures err { OnErr result (pass.new.mine ≡ pass.old.mine) }
    ensures memory { IfErr result (λ r. r ≡ Refusal.OutOfMemory → pass.new ≡ pass.old) }
    ensures shown { IfErr result (λ r. (r ≡ Refusal.OutOfMemory) ⊎ (pass.new.seen ≡ book.old.steps)) }
    ensures cause { (st : Step Q) → IsHalf Q.system J.founders keeper.old st ready → IfErr result (λ r. Told (refusal Q.system (state Q.system book.old) st) (length book.old.steps) book.old.capacity r) }
{
    let Pass { seen, count, mine } = pass;
    let place = book.begun(seen);
    let effect = match finish_in(book, keeper, mine, ready) {
        Ok(effect) => effect,
        Err(cause) => match cause {
            Refusal::OutOfMemory => return Err(cause),
            _ => {
                *count = book.show(seen);
                return Err(cause);
            }
        },
    };
    *count = book.show(seen);
    note_call(mine, place, &effect);
    Ok(effect)
}

/// Makes a call for this client, of which the first half was made, or refused; the client has then seen it: its id.
pub fn call_in<J: Terms<Q>, Q: Quorums, S: Replica>(
    book: &mut Book<J, Q>,
    keeper: &mut Keeper<J, Q, S>,
    pass: &mut Pass<J, Q>,
    name: Name,
    ready: Result<Ready<Q>, Refusal>,
) -> Result<CallId, Refusal>
    requires ready { IfOk ready (IsReadyFor Q.system J.founders keeper.old) }
    requires call { (op : Op) × IsHalf Q.system J.founders keeper.old (StepOf.Call name op) ready }
    ensures begins { IsPrefix pass.old.seen pass.new.seen }
    ensures between { IsPrefix pass.old.seen book.old.steps }
    ensures terms { (J.founders ≡ Some book.old.founders) × (book.old.capacity ≡ J.capacity) }
    ensures before { IsLegal Q.system book.old.founders book.old.steps }
    ensures last { (op : Op) → IsHalf Q.system J.founders keeper.old (StepOf.Call name op) ready → OnOk result (pass.new.seen ≡ book.old.steps ++ StepOf.Call name op ∷ []) }
    ensures legal { OnOk result (IsLegal Q.system book.old.founders pass.new.seen) }
    ensures accepted { (op : Op) → IsHalf Q.system J.founders keeper.old (StepOf.Call name op) ready → OnOk result (refusal Q.system (state Q.system book.old) (StepOf.Call name op) ≡ None) }
    ensures effect { (op : Op) → IsHalf Q.system J.founders keeper.old (StepOf.Call name op) ready → IfOk result (λ id. Effect.Called id ≡ (turn (state Q.system book.old) (StepOf.Call name op)).effect) }
    ensures mine { IfOk result (λ id. pass.new.mine ≡ pass.old.mine ++ record { place = length book.old.steps; id = id } ∷ []) }
    ensures err { OnErr result (pass.new.mine ≡ pass.old.mine) }
    ensures memory { IfErr result (λ r. r ≡ Refusal.OutOfMemory → pass.new ≡ pass.old) }
    ensures shown { IfErr result (λ r. (r ≡ Refusal.OutOfMemory) ⊎ (pass.new.seen ≡ book.old.steps)) }
    ensures cause { (op : Op) → IsHalf Q.system J.founders keeper.old (StepOf.Call name op) ready → IfErr result (λ r. Told (refusal Q.system (state Q.system book.old) (StepOf.Call name op)) (length book.old.steps) book.old.capacity r) }
{
    match act_ready_in(book, keeper, pass, ready)? {
        Effect::Called(id) => Ok(id),
        _ => unreachable!(),
    }
}

/// Both have then seen what the longer one had. What the other one had seen begins that.
pub fn meet_in<J: Terms<Q>, Q: Quorums>(
    book: &mut Book<J, Q>,
    one: &mut Pass<J, Q>,
    other: &mut Pass<J, Q>,
)
    ensures book { book.new ≡ book.old }
    ensures same { (one.new.seen ≡ other.new.seen) × (one.new.mine ≡ one.old.mine) × (other.new.mine ≡ other.old.mine) }
    ensures longer { ((one.new.seen ≡ one.old.seen) × IsPrefix other.old.seen one.old.seen) ⊎ ((one.new.seen ≡ other.old.seen) × IsPrefix one.old.seen other.old.seen) }
{
    one.begins(book);
    other.begins(book);
    if one.count < other.count {
        one.copy(book, other);
    } else {
        other.copy(book, one);
    }
}
