// "A route is subdomain × 4,096 + sender × 64 + receiver." It is put together and taken apart here.
ghost use Rattle.std.specs.Prelude.{◌≡◌, ◌<◌};
ghost use Rattle.moves.specs.Moves.{route, subdomain, sender, receiver};

// The route of subdomain n from sender s to receiver r.
pub fn route(n: usize, s: usize, r: usize) -> u32
    requires { (n < 64) × (s < 64) × (r < 64) }
    ensures { result ≡ route n s r }
{
    (n * 4096 + s * 64 + r) as u32
}

pub fn subdomain(route: u32) -> u32
    ensures { result ≡ subdomain route }
{
    route / 4096
}

pub fn sender(route: u32) -> u32
    ensures { result ≡ sender route }
{
    route / 64 % 64
}

pub fn receiver(route: u32) -> u32
    ensures { result ≡ receiver route }
{
    route % 64
}
