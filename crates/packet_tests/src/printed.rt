// Texts that are printed, or what came in their place.
use fields::refusal::Refusal;
use files::print_text;
use std::alloc::AllocError;
use std::io;

#[test]
fn any_refusal(rt: HostRuntime) -> io::Result<()> {
    print_text(&rt, Err(Refusal::NoRoom))?;
    print_text(&rt, Err(AllocError))?;
    let text = String::new(rt.alloc());
    print_text::<Refusal>(&rt, Ok(text))
}
