use press_acceptor::MemoryStore;
use press_callbacks::Kit;
use press_node::Node;
use press_server::{begin, serve_turn};
use std::alloc::Global;
use std::test::Fail;

const FORM: &[u8] =
    b"POST /command HTTP/1.1\r\nHost: a\r\nContent-Length: 79\r\n\r\neditor=ann&seq=1&at=100&kind=insert&title=a%26b&content=Hi+there&status=publish";

const REPLY: &[u8] =
    b"HTTP/1.1 200 OK\r\nContent-Type: text/html; charset=UTF-8\r\nContent-Length: 172\r\nConnection: close\r\n\r\n<!DOCTYPE html>\n<html>\n<head>\n<title>Press</title>\n</head>\n<body>\n<h1>Press</h1>\n<article id=\"post-1\">\n<h2><a href=\"/?p=1\">a&b</a></h2>\nHi there\n</article>\n</body>\n</html>\n";

// The status, and the reply.
fn serve_bytes(alloc: Global, node: &mut Node<MemoryStore>, request: &[u8]) -> (u16, Vec<u8>)
    requires always { Unit {0} }
{
    let mut request = request;
    let mut told: Vec<u8> = Vec::new(alloc);
    let status = serve_turn(alloc, node, &mut request, &mut told).unwrap_or(0);
    (status, told)
}

#[test]
fn a_command_is_shown_by_the_next_page(rt: HostRuntime) -> Result<(), Fail> {
    let alloc = rt.alloc();
    let kit = Kit::build(alloc, Vec::new(alloc), Vec::new(alloc))?;
    let Ok(mut node) = begin(alloc, kit, MemoryStore::new(alloc)) else {
        return Err(Fail::from("no node"));
    };
    let (status, _) = serve_bytes(alloc, &mut node, FORM);
    assert_eq!(rt; status, 202);
    let (status, reply) = serve_bytes(alloc, &mut node, b"GET /?p=1 HTTP/1.1\r\nHost: a\r\n\r\n");
    assert_eq!(rt; status, 200);
    assert!(rt; reply.as_slice() == REPLY);
    Ok(())
}
