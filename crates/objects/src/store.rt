// The store: the tables with what always holds of them.
ghost use Rattle.objects.specs.Kept.{ObjectsFew, RecordsFew, FramesFew, TopsLive, ChainsEnd, OwnersLive, OwnersApart, AllSettled};

use crate::tables::Tables;

// Up to 256 sharing records, their memory objects, and up to 128 frames.
#[derive(Clone, Copy)]
pub struct Store {
    pub(crate) tables: Tables,
    ghost objects: { ObjectsFew tables },
    ghost records: { RecordsFew tables },
    ghost frames: { FramesFew tables },
    ghost tops: { TopsLive tables },
    ghost chains: { ChainsEnd tables },
    ghost owners: { OwnersLive tables },
    ghost apart: { OwnersApart tables },
    ghost settled: { AllSettled tables },
}
