// Whether a queue files just the rows of key, release and id that it is compared with: its places, and then its links.
ghost use Rattle.basics.specs.Decides.{Decides};
ghost use Rattle.places.specs.Entries.{FilesJust};
ghost use Rattle.places.specs.Filing.{CanFile};
ghost use Rattle.queue.specs.Layout.{entries, Sound};

use crate::Queue;
use places::Rows;

impl Queue {
    // Whether a queue is sound and files just the first `count` rows. They are within the bounds of a queue, so the links alone are left to test.
    // Columns and no `Rows`: so the layer above calls it.
    pub fn is_sound_filing_in_range(
        &self,
        ids: &[u32; 64],
        dues: &[u32; 64],
        releases: &[u32; 64],
        count: usize,
    ) -> bool
        requires { CanFile ids.now dues.now releases.now count }
        ensures { Decides result (Sound self.now × FilesJust ids.now dues.now releases.now count (entries self.now)) }
    {
        let rows = Rows {
            ids,
            keys: dues,
            releases,
            count,
        };
        self.places().file_in_range(rows) && self.all_linked()
    }
}
