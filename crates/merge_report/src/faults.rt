use crate::status::Status;
use emerge_words::WordFault;
use file_tree::{Quantity, TreeFault};
use recovery::RecoverFault;
use std::alloc::AllocError;
use vdb_text::DatabaseFault;
use visible_set::OffersFault;

impl From<TreeFault> for Status {
    ghost use Rattle.std.specs.Prelude.{◌≡◌};
    ghost use Rattle.merge_report.specs.Faults.{status_of_tree};

    ghost from_gives = { λ f s. s ≡ status_of_tree f };

    fn from(fault: TreeFault) -> Status {
        match fault {
            TreeFault::Failed => Status::DeviceFault,
            TreeFault::Memory => Status::Memory,
        }
    }
}

impl From<RecoverFault> for Status {
    ghost use Rattle.std.specs.Prelude.{◌≡◌};
    ghost use Rattle.merge_report.specs.Faults.{status_of_recovery};

    ghost from_gives = { λ f s. s ≡ status_of_recovery f };

    fn from(fault: RecoverFault) -> Status {
        match fault {
            RecoverFault::BadRecord { group } => {
                Status::BadJournal(RecoverFault::BadRecord { group })
            }
            RecoverFault::BadStage { group, index } => {
                Status::BadJournal(RecoverFault::BadStage { group, index })
            }
            RecoverFault::Limit => Status::Limit {
                quantity: Quantity::Groups,
            },
            RecoverFault::Tree(fault) => Status::from(fault),
        }
    }
}

impl From<OffersFault> for Status {
    ghost use Rattle.std.specs.Prelude.{◌≡◌};
    ghost use Rattle.merge_report.specs.Faults.{status_of_offers};

    ghost from_gives = { λ f s. s ≡ status_of_offers f };

    fn from(fault: OffersFault) -> Status {
        match fault {
            OffersFault::Text { path, line } => Status::BadText { path, line },
            OffersFault::Limit => Status::Limit {
                quantity: Quantity::Candidates,
            },
            OffersFault::Tree(fault) => Status::from(fault),
        }
    }
}

impl From<DatabaseFault> for Status {
    ghost use Rattle.std.specs.Prelude.{◌≡◌};
    ghost use Rattle.merge_report.specs.Faults.{status_of_database};

    ghost from_gives = { λ f s. s ≡ status_of_database f };

    fn from(fault: DatabaseFault) -> Status {
        match fault {
            DatabaseFault::Limit { quantity } => Status::Limit { quantity },
            DatabaseFault::Tree(fault) => Status::from(fault),
            fault => Status::BadDatabase(fault),
        }
    }
}

impl From<WordFault> for Status {
    ghost use Rattle.std.specs.Prelude.{◌≡◌};
    ghost use Rattle.merge_report.specs.Faults.{status_of_word};

    ghost from_gives = { λ f s. s ≡ status_of_word f };

    fn from(fault: WordFault) -> Status {
        match fault {
            WordFault::Memory => Status::Memory,
            fault => Status::Usage { fault },
        }
    }
}

impl From<AllocError> for Status {
    ghost use Rattle.std.specs.Prelude.{◌≡◌};
    ghost use Rattle.merge_report.specs.declared.status.Status.TheVariants as status;

    ghost from_gives = { λ _ s. s ≡ status.Memory };

    fn from(_: AllocError) -> Status {
        Status::Memory
    }
}
