//! What a worker has routed.

use crate::route_buffer::RouteBuffer;
use std::alloc::Global;
use std::marker::Model;

/// Commodities with a path for each, in the order in which they were routed. Contracts see them as a list.
#[derive(Drop)]
pub struct Routes {
    pub(crate) buffer: RouteBuffer,
}

impl Model for Routes {
    ghost use Rattle.std.specs.Prelude.{List};
    ghost use Rattle.phase_engine.specs.Routes.{Route};

    ghost Value = { List Route };

    ghost view = { λ r. r.buffer.routes };
}

impl Routes {
    ghost use Rattle.std.specs.Prelude.{◌≡◌, ◌<◌, [], length, slice_index_or};

    /// No routes.
    pub fn new(alloc: Global) -> Self
        ensures { result ≡ [] }
    {
        Routes {
            buffer: RouteBuffer::new(alloc),
        }
    }

    /// How many routes there are.
    pub fn len(&self) -> usize
        ensures { result ≡ length self.now }
    {
        self.buffer.len()
    }

    /// Whose route it is.
    pub fn commodity(&self, i: usize) -> u32
        requires { i < length self.now }
        ensures { result ≡ (slice_index_or self.now i (record { commodity = 0; path = [] })).commodity }
    {
        self.buffer.commodity(i)
    }

    /// The cells of the route's path, in the buffer of all routes.
    pub fn path(&self, i: usize) -> &[u16]
        requires { i < length self.now }
        ensures { result.now ≡ (slice_index_or self.now i (record { commodity = 0; path = [] })).path }
    {
        self.buffer.path(i)
    }

    /// Forgets all routes, and keeps the memory.
    pub fn clear(&mut self)
        ensures { self.new ≡ [] }
    {
        self.buffer.clear();
    }
}
