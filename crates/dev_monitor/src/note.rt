ghost use Rattle.std.specs.Prelude.{◌≡◌};
ghost use Rattle.dev_monitor.specs.Subscribers.{note_with};

use crate::news::News;
use cf_types::Name;

/// What a subscriber reads: a device came below its parent (`attach`) or went from below it, behind so many notes that were lost to
/// this subscriber. A parent is named as in a history, the root by `root`. See `device-attach` and `device-detach` in drvctl(4).
#[derive(Drop)]
pub struct Note {
    pub lost: u64,
    pub attach: bool,
    pub device: Name,
    pub parent: Name,
}

impl Note {
    /// What was told, behind so many notes that were lost.
    pub(crate) fn of(news: News, lost: u64) -> Note
        ensures { result ≡ note_with lost news }
    {
        let News {
            attach,
            device,
            parent,
        } = news;
        Note {
            lost,
            attach,
            device,
            parent,
        }
    }
}
