//! What answers a worker's get rows without the tree's lock.

ghost use Rattle.std.specs.Prelude.{true, IfOk, IfErr, false};
ghost use Rattle.bw_snap.specs.Answers.{IsLookIn};
ghost use Rattle.bw_snap.specs.Snapshots.{BeginsWith};
ghost use Rattle.bw_run.specs.Stops.{MayStop};

use crate::answers::Stop;
use bw_keys::Key;
use bw_snap::{Closed, Naming, Stamp};
use bw_step::Look;
use nifforan_shared::Reading;
use std::convert::Infallible;
use std::snapshot::Snapshot;
use std::sync::Wait;
use std::sync::ledger::Ledger;

/// What a reader found, and how far the publication goes that it had learnt of.
#[derive(Drop)]
pub(crate) struct Found<S> {
    pub look: Look,
    pub published: Snapshot<S>,
}

/// A reader of a run's tree.
pub(crate) trait Looks: Sized {
    ghost use Rattle.std.specs.Prelude.{ℕ, Bool, IfOk, IfErr};
    ghost use Rattle.bw_run.specs.Reads.{IsFoundBy, IsLearntBy};
    ghost use Rattle.bw_step.specs.declared.view.Look.{Look};
    ghost use Rattle.bw_run.specs.Stops.{MayStop};

    /// What a publication returns, and nothing else does.
    type Stamp;

    // the look is what the reader found at the key
    ghost finds: { Self → ℕ → Look → Type 0 };

    // the reader has learnt of all that the stamp covers
    ghost has_learnt: { Self → Self.Stamp → Type 0 };

    // the reader may find nothing to read
    ghost may_close: { Bool };

    /// Looks the key up by the reader, if there is one, once it has learnt of a publication of all
    /// that the calling thread has changed.
    fn look_by(reader: &mut Option<Self>, key: Key) -> Result<Option<Found<Self::Stamp>>, Stop>
        ensures found { IfOk result (IsFoundBy finds reader.new key) }
        ensures learnt { IfOk result (IsLearntBy has_learnt reader.new) }
        ensures stop { IfErr result (MayStop may_close) };
}

/// There is no reader: each read takes the tree's lock.
impl Looks for Infallible {
    type Stamp = Infallible;

    ghost finds = { λ reader key look. ⊥ };

    ghost has_learnt = { λ reader stamp. ⊥ };

    ghost may_close = { false };

    fn look_by(
        reader: &mut Option<Infallible>,
        _key: Key,
    ) -> Result<Option<Found<Infallible>>, Stop> {
        match reader {
            Some(never) => match *never {},
            None => Ok(None),
        }
    }
}

/// Publishes first what the calling thread has changed, and has the reader learn of that.
impl<'t, R: Wait + Copy, N: Naming, D: Ledger> Looks for Reading<'t, R, N, D> {
    type Stamp = Stamp<N>;

    ghost finds = { λ reading key look. IsLookIn N.config key reading.reader look };

    ghost has_learnt = { λ reading stamp. BeginsWith reading.reader stamp };

    ghost may_close = { true };

    fn look_by(
        reading: &mut Option<Reading<'t, R, N, D>>,
        key: Key,
    ) -> Result<Option<Found<Stamp<N>>>, Stop> {
        match reading {
            Some(reading) => Ok(Some(publish_and_look(reading, key)?)),
            None => Ok(None),
        }
    }
}

/// Publishes what the calling thread has changed, has the reader learn of that, and looks the key up.
fn publish_and_look<R: Wait + Copy, N: Naming, D: Ledger>(
    reading: &mut Reading<'_, R, N, D>,
    key: Key,
) -> Result<Found<Stamp<N>>, Stop>
    ensures found { IfOk result (λ found. IsLookIn N.config key reading.new.reader found.look) }
    ensures learnt { IfOk result (λ found.
        BeginsWith reading.new.reader found.published.value) }
    ensures stop { IfErr result (MayStop true) }
{
    let stamp = reading.tree.publish()?;
    let published = Snapshot::of(&stamp);
    reading.reader.learn(stamp);
    match reading.reader.look(key) {
        Ok(look) => Ok(Found { look, published }),
        Err(Closed) => Err(Stop::Closed),
    }
}
