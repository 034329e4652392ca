ghost use Rattle.std.specs.Prelude.{◌≡◌, ◌<◌, ◌==◌, IsTrue, codes, option_copied};
ghost use Rattle.manifest.specs.Reads.{bundle_content};
ghost use Rattle.manifest.specs.Sound.{is_bundle_text};
ghost use Rattle.slot_status.specs.Books.{record_content};
ghost use Rattle.slot_status.specs.Changes.{activate_record, begin_record, finish_record};

use crate::SlotRecord;
use crate::image_file::{digest_if_any, size_if_any};
use manifest::{BundleText, ImageFile};
use updater_text::Text;

impl SlotRecord {
    // An update of the slot has begun.
    pub(crate) fn begin(&mut self, update: Text)
        requires { update ≡ codes "update" }
        ensures { record_content self.new ≡ begin_record (record_content self.old) }
    {
        self.status = Some(update);
    }

    // The slot was installed, from the file of an image or by a hook.
    pub(crate) fn finish(
        &mut self,
        bundle: BundleText,
        ok: Text,
        file: Option<&ImageFile>,
        time: Text,
    )
        requires ok { ok ≡ codes "ok" }
        requires time { IsTrue (is_bundle_text time) }
        requires more { self.old.installed_count < 4294967295 }
        ensures { record_content self.new
            ≡ finish_record (bundle_content bundle) (option_copied file.entry) time (record_content self.old) }
    {
        self.bundle = Some(bundle);
        self.status = Some(ok);
        self.digest = digest_if_any(file);
        self.size = size_if_any(file);
        self.installed_time = Some(time);
        self.installed_count += 1;
    }

    // The slot was made the one to boot from.
    pub(crate) fn activate(&mut self, time: Text)
        requires time { IsTrue (is_bundle_text time) }
        requires more { self.old.activated_count < 4294967295 }
        ensures { record_content self.new ≡ activate_record time (record_content self.old) }
    {
        self.activated_time = Some(time);
        self.activated_count += 1;
    }
}
