// The size of a page, its version and its status.
ghost use Rattle.std.specs.Prelude.{◌≡◌, slice_index};
ghost use Rattle.archive.specs.Answers.{bytes_in, number_in, page_answer, version_answer, status_answer};
ghost use Rattle.archive.specs.Bytes.{bytes_of};

use super::Page;
use crate::bytes::read16;
use rules::{PageFault, Status};

impl<'a> Page<'a> {
    // Bytes as a page, where there are as many as a page has.
    pub(crate) fn new(bytes: &'a [u8]) -> Result<Page<'a>, PageFault>
        ensures { bytes_in result ≡ page_answer bytes.now }
    {
        if bytes.len() != 1292 {
            return Err(PageFault::Size(bytes.len()));
        }
        Ok(Page { bytes })
    }

    // Whether the page has the version that is read here.
    pub(crate) fn check_version(&self) -> Result<(), PageFault>
        ensures { result ≡ version_answer (bytes_of self.now) }
    {
        let version = read16(self.bytes, 0);
        if version != 1 {
            return Err(PageFault::Version(version));
        }
        Ok(())
    }

    // The status, where there is one with the page's number.
    pub(crate) fn status(&self) -> Result<Status, PageFault>
        ensures { number_in result ≡ status_answer (bytes_of self.now) }
    {
        Ok(Status::try_from(read16(self.bytes, 6))?)
    }

    // The byte at a place; 0 past the last.
    pub(crate) fn byte(&self, at: usize) -> u8
        ensures { result ≡ slice_index (bytes_of self.now) at }
    {
        self.bytes.get(at).copied().unwrap_or(0)
    }
}
