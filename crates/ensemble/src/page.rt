// What all voices read in a block, of a slot's page.
ghost use Rattle.std.specs.Prelude.{◌≡◌};
ghost use Rattle.slot.specs.Moved.{LoopbackIn};
ghost use Rattle.ensemble.specs.Pages.{block_page};

use super::BlockPage;
use clock::Block;
use slot::Page;

// Of a block of `frames` frames for `voices` voices. The lists are the page's: calls make them, and no block does. What is lent is copied to a local first; the times go through
// a variable, since a field that is an array is in no proof stored straight.
pub fn block_page(page: Page, block: Block, frames: usize, voices: usize) -> BlockPage
    requires { LoopbackIn page.shape.loopback 64 }
    ensures { result ≡ block_page page block frames voices }
{
    let lists = page.lists;
    let times = page.path.times;
    BlockPage {
        settings: page.settings,
        block,
        lists,
        n: slot::point_count(page.settings.kind, page.shape.len, page.path.len),
        times,
        closed: page.path.closed,
        loopback: slot::loop_point(page.settings.kind, page.shape.loopback, &lists.xs),
        frames,
        voices,
    }
}
