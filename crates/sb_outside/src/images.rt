// Laws of what a crash may leave.
ghost use Rattle.sb_outside.specs.Images.{WritesKeepImages, CutsKeepImages, RestHasOneImage};

/// A write takes no image away, whatever is read afterwards. So a crash within it leaves nothing but
/// what a crash after it may leave.
pub fn writes_keep_images()
    ensures { WritesKeepImages }
{}

/// The same of a cut.
pub fn cuts_keep_images()
    ensures { CutsKeepImages }
{}

/// After a sync, a crash leaves what is read.
pub fn rest_has_one_image()
    ensures { RestHasOneImage }
{}
