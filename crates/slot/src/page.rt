// What calls set of a slot.
ghost use Rattle.std.specs.Prelude.{◌≡◌, ◌≤◌};
ghost use Rattle.slot.specs.Page.{page_of, new_page};

use super::moved::Lists;
use path::Path;
use points::POINT_BUSES;
use settings::Settings;
use shape::Shape;

// A slot's settings, curves and bus values, and the points of the settings' type as the buses move them.
#[derive(Clone, Copy)]
pub struct Page {
    pub settings: Settings,
    pub shape: Shape,
    pub path: Path,
    pub buses: [f32; POINT_BUSES],
    pub lists: Lists,
}

impl Page {
    // Of these settings, curves and bus values.
    pub fn of(settings: Settings, shape: Shape, path: Path, buses: [f32; POINT_BUSES]) -> Self
        requires { (shape.len ≤ 64) × (path.len ≤ 64) }
        ensures { result ≡ page_of settings shape path buses }
    {
        Page {
            settings,
            shape,
            path,
            buses,
            lists: Lists::of(settings.kind, shape, path, &buses),
        }
    }

    // With these settings, each number in its range, the init shape and path, and all buses at 0.
    pub fn new(settings: Settings) -> Self
        ensures { result ≡ new_page settings }
    {
        Page::of(
            settings.clamped(),
            Shape::default(),
            Path::default(),
            [0.0f32; POINT_BUSES],
        )
    }
}
