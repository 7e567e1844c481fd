//! Random texts with a fault and the first fault that the format finds in them, from the plain
//! model in tests/outside/dataset_model, which prints this file. Don't edit it.

use mb_data::DataFault;

/// Each text, and its fault.
pub const FAULTS: [(&[u8], DataFault); 62] = [
    (
        b"\xef\xbb\xbf\xef\xbb\xbfq\"r,\"x,y\",count\r\n\\,1,\r\n\\,w,012  ",
        DataFault::Csv { row: 1 },
    ),
    (
        b"\"count\",q\"r,\"x,y\",\"#n\",\"q\"\"r\"\r\n\r\n03,3,\"\"\"\"\"\",count,3\r\n1,3,\"\"\"\
        \"\"\",\",\",\"3\"\r\n0,3,'x',\"old,\"\"new\"\"\",3\r\n",
        DataFault::Repeated { row: 1 },
    ),
    (
        b"b,\"x,y\",\r\n\\,02,0012  \r\nx ,02,0\r\n\"x \",q\"r,\"*\"\r\n\r\nx ,z,\"00999\"\r\n\\,\
        z, *\r\n\\,q\"r,*  \r\n",
        DataFault::NoCountColumn,
    ),
    (b"count\n\"40  \"\n40", DataFault::NoFactor),
    (
        b"w,2,count\nv,q\"r,1\nv,\"old,\"\"new\"\"\",12\n\nw, ,3  \nu,q\"r,12  \nw,\"old,\"\"new\
        \"\"\",999\nv, \xed\xa0\x80,\"2  \"\nu, ,40  ",
        DataFault::Csv { row: 7 },
    ),
    (
        b"a ,Count,count\r\nx,*,40  \r\nz,q\"r,1\r\nz,*, *\r\nx,\",\",3\r\nz,\",\",0  \r\n\"x\",\
        \"q\"\"r\",\xc2\xbd\r\n",
        DataFault::BadCount { row: 7 },
    ),
    (
        b"2,v,count\n2,*, 0\n2,*, 00999\nz,*,5\nz,1,03\n\"2\",1,40\n",
        DataFault::Repeated { row: 3 },
    ),
    (
        b"z,3,count\n\",\",w,*\n\",\",z,1\n\"\"\"\",y,\"0040\"\n\",\",y,*\n,w,*\n\"\"\"\",z, 1\n\
        \"\"\"\",w,40\n,y,*\n,z,1000000\n",
        DataFault::TotalTooLarge,
    ),
    (
        b"\"*\",Count,count\r\n\"\r\n\",z,*\r\nx ,\"z\", *\r\n",
        DataFault::NoCell,
    ),
    (
        b"f1,\"x,y\",\"a\",count\n1,count,\"u\nv\",0\nz,count,no, 5\ny,'x',\"old,\"\"new\"\"\", *\
        \n1,'x',\"z\", *\n\"z\",count,z, *  \n1,count,\"old,\"\"new\"\"\",*\nx,'x',z,\"0999\"\n\"\
        3\",count,\"u\nv\",1\nu,count,\"u\nv\",000\n3,count,#x,1\n3,'x','x',1\nu,'x',no,*\n",
        DataFault::TooManyCells,
    ),
    (
        b"\xef\xbb\xbf\xef\xbb\xbf2,1,count\n0, ,2\n\"x,y\",count,12  \n\"x,y\",\" \",1\n\"x,y\",\
        \",\",999\n0,\",\",\" 999  \"\n0,count, *  \n",
        DataFault::Csv { row: 1 },
    ),
    (
        b"u,count,count\r\n\"x\",\"\r\n\",2\r\n\" x\",\"\r\n\", 2\r\n0,\"\r\n\",*  \r\n",
        DataFault::Repeated { row: 1 },
    ),
    (
        b"b,a,grade,COUNT\n2,,x,\"03\"\n2,02,x,01\nx,,y,1\n",
        DataFault::NoCountColumn,
    ),
    (b"\xef\xbb\xbfcount\n 3\n001\n", DataFault::NoFactor),
    (
        b"z,3,count\n\"u\nv\", 002  \nw,\xef\xbb\xbfb,00\nw,\",\",40\n\"w\",\xef\xbb\xbfb,0999\n",
        DataFault::Csv { row: 2 },
    ),
    (
        b"z,\"x\",count\n\",\",z,00  \n\",\",x,\"1\t\"\n",
        DataFault::BadCount { row: 3 },
    ),
    (
        b"3,v,count\r\n2,1,3  \r\nw,y,\" 999\"\r\n\r\n\"2\",y,1\r\nw,y, *",
        DataFault::Repeated { row: 5 },
    ),
    (
        b"count,Count,#n,\"u\r\nv\"\r\n40,3,y,\",\"\r\n 03,3,v,'x'\r\n999999,3,w,\",\"\r\n 0,3,v,\
        \",\"\r\n",
        DataFault::TotalTooLarge,
    ),
    (b"#n,a,\"count\"\n1,z,*\n1,\"u\nv\",*", DataFault::NoCell),
    (
        b"\xef\xbb\xbf\"\"\"q\"\"\",,grade,\"count\"\n\"\"\"\"\"\",y,\"#x\",1\n#x,\"\"\"\",0,01\n\
        \\,q\"r,0,\"003  \"\n\n\",\", x,0,3\nq\"r,q\"r,#x,03\ny,\"\"\"\",0,*\n\"\"\"\"\"\",a b,#x\
        ,0040\n\xef\xbb\xbfb,\"old,\"\"new\"\"\",#x,12\ny,\"old,\"\"new\"\"\",02,\" 1\"\n#x,\"\"\
        \"\",02,999\n\"\"\"\"\"\",q\"r,02,\"03\"\ny,\"a b\",0,1\n",
        DataFault::TooManyCells,
    ),
    (
        b"count,\"u\r\nv\xf4\x90\x80\x80\",\"x,y\"\n 2,3,1\n0012,3,3\n",
        DataFault::Csv { row: 1 },
    ),
    (
        b"|,\"\"\"q\"\"\",\"\"\"q\"\"\"\r\nv,\xc3\xa9, 1  \r\nw,\xc3\xa9, 999\r\nv,\xc3\xa9, 1\r\
        \n\"3\",\xc3\xa9,01\r\n",
        DataFault::Repeated { row: 1 },
    ),
    (
        b"w,3,n\n\",\",2, 999\n\",\",\"z\",05\n\",\",v, 5\n\n",
        DataFault::NoCountColumn,
    ),
    (b"count\n 3\n1\n 12\n 40\n999\n1  \n", DataFault::NoFactor),
    (
        b"w,u,count\r\nu,\"\"\"\"\"\",0\r\nu,*\r\n",
        DataFault::Csv { row: 3 },
    ),
    (
        b"grade,\"u\nv\",count\n*,y,40\n\",\",z,1  \n\xc3\xa9,y, 40\n*,z,040\n\",\",\"y\",001\n\"\
        \xc3\xa9\",z,\xd9\xa3\n\",\",2, 1\n\xc3\xa9,2,40\n*,2,0  \n",
        DataFault::BadCount { row: 7 },
    ),
    (
        b"z,2,u,v,count\n\"x\",\xef\xbb\xbfb,x,\\, 000\nx,\"\xef\xbb\xbfb\",x,\\,*\nx,'x',x,\\,09\
        99\n",
        DataFault::Repeated { row: 3 },
    ),
    (
        b"y,3,count\nx,y,4294967296\n3,y,012\nx,\"\"\"\",40  \n3,\"\"\"\",\"40\"\n\n",
        DataFault::TotalTooLarge,
    ),
    (
        b"1,2,count\ny,\"0\",*\n1,\"x,y\",*\n\"1\",0,*\ny,\"x,y\",*\n3,0,*\n1,\xc3\x9f,*\n3,\"x,y\
        \",*\n3,\xc3\x9f,*\n\"y\",\xc3\x9f,*\n",
        DataFault::NoCell,
    ),
    (
        b"y,z,1,\"x\",count\n1,w,\xc3\x9f,x,2\n,w,q\"r,z,12\n\xef\xbb\xbfb,w,\xc3\x9f,\"3\",5\n\"\
        x,y\",w,\"x,y\",v,000\n\xef\xbb\xbfb,w,no,\"u\",\"002\"\nyes,w,\"x,y\",z,1\n\"x,y\",w,q\"\
        r,z, *\nx,w,,v,999\nx,w,0,v, *\n02,w,0,z,\" 00999\"\n\"\xef\xbb\xbfb\",w,yes,x,*\n\"x,y\"\
        ,w,yes,\"u\",\"5\"\n",
        DataFault::TooManyCells,
    ),
    (b"", DataFault::Csv { row: 1 }),
    (
        b"2,2,u,count\nw,\"x,y\",z,1\nv,\"x,y\",z, *  \n\"2\",\"x,y\",z,0\n",
        DataFault::Repeated { row: 1 },
    ),
    (
        b"*,\"u\r\nv\", count\n1,v,\"*\"\n1,z,*\n",
        DataFault::NoCountColumn,
    ),
    (b"count\n0040\n3\n*\n 999\n5\n*\n", DataFault::NoFactor),
    (
        b"count,\"w\",3,v\n 003,u,1,\"z\",v\n 3  ,3,y,v\n 0  ,u,y,v\n",
        DataFault::Csv { row: 2 },
    ),
    (
        b"\xef\xbb\xbfu,z,1,count\n02,1,3,\n02,1,1,\"00  \"\n\\,1,3,40\n",
        DataFault::BadCount { row: 2 },
    ),
    (
        b"1,3,\"count\"\n\xef\xbb\xbfb,\"\r\n\",7\n\xef\xbb\xbfb,\"\r\n\",0\n'x',x,\"0\"\n",
        DataFault::Repeated { row: 3 },
    ),
    (
        b"1,z,count\n1,y, 3\n\n\"w\",\"x,y\",9999999999999999999999999999999999999999\n1,\"x,y\",\
        \x20002\n",
        DataFault::TotalTooLarge,
    ),
    (
        b"w,2,3,y,count\n\\,\"u\nv\",\"*\",\"y\",\"*\"\n\\,'x',*,y,\" *\"\n\n\\,\"u\nv\",x ,y,*\n\
        \\,'x',x ,y, *  \n",
        DataFault::NoCell,
    ),
    (
        b"\"\"\"q\"\"\",\"x,y\",b,\"u\nv\",count\nz,1,\"v\",w,*  \nz,1,v,2, *\nw,\"old,\"\"new\"\
        \"\",v,2,*\n2,\"old,\"\"new\"\"\",\"v\",2, *\nv,\"\"\"\",v,2,\" *\"\n\"2\",\",\",\"z\",x,\
        1\nw,,\"z\",2,\"0999\"\nw,\"x,y\",z,3,\"001\"\nw,\"\"\"\",v,3,1\nz,1,z,2, *\nz,\"x,y\",v,\
        x,12\n2,no,z,2, 0\n",
        DataFault::TooManyCells,
    ),
    (
        b"\xef\xbb\xbf\"x\",\xef\xbb\xbfcount,w\r\nx, 1,'x'\r\nz, 1  ,'x'\r\nz,\"1\",\"\"\"\"\"\"\
        \r\n\"1\", 1,'x'\r\nx,00,\"\"\"\"\"\"\r\n1,1,\"\"\"\"\"\"",
        DataFault::Csv { row: 1 },
    ),
    (
        b"w,v,v,count\n2,u,\"\"\"\",*\ny,u,\"\"\"\", 2  \n\"2\",u,\"\"\"\"\"\",40  \nz,u,\"\"\"\"\
        \"\",000  \n",
        DataFault::Repeated { row: 1 },
    ),
    (
        b"3,2,Count\r\n\"\"\"\",1,040\r\n\"\"\"\",y,\"2\"",
        DataFault::NoCountColumn,
    ),
    (b"count\r\n 12\r\n0\r\n 0  \r\n", DataFault::NoFactor),
    (
        b"u,2,w,\"count\"\ny,w,\"\"\"\",3  \xc3\n\nw,\"x\",\"\"\"\",0\n",
        DataFault::Csv { row: 2 },
    ),
    (
        b"q\"r, a,b,count\nu,*,\"u\", 40\n3,*,u,'1'\n2,*,\"u\",40  \n",
        DataFault::BadCount { row: 3 },
    ),
    (
        b"b,\"count\",a\n02,03,q\"r\n,*  ,\"x,y\"\n02, 999,\"x,y\"\n,1,\"x,y\"",
        DataFault::Repeated { row: 5 },
    ),
    (
        b"\"x\",w,count\nu,\"u\nv\",02\nu,\"\"\"\"\"\",12  \n2,\"u\nv\", 005\n\"2\",\"\"\"\"\"\",\
        00\n2,\"\"\"\",001\nx,\"\"\"\",3\nu,\"\"\"\",\"12  \"\nx,\"u\nv\",3\nx,\"\"\"\"\"\",99999\
        99999999999999999999999999999999999\n",
        DataFault::TotalTooLarge,
    ),
    (b"u,y,count", DataFault::NoCell),
    (
        b"a ,a,\"\"\"q\"\"\",count\n\"\r\n\",a b,v,40  \n\xef\xbb\xbfb,y,1,*\nx ,\xc3\xa9,v,3\n\"\
        x,y\",1,v,40\ny,1,\"x\",999\n02,1,y,999\n\"\r\n\",no,3,0\nz,\"a b\",z,0\ny, ,1, 2\n\xef\
        \xbb\xbfb,y,w, *\n\xef\xbb\xbfb,y,x,999\nz,y,\"z\", 2  \n",
        DataFault::TooManyCells,
    ),
    (b"\xef\xbb\xbf", DataFault::Csv { row: 1 }),
    (
        b"x,2,x\n1,v,3\nu,x, *\nz,x, 001\nu,v,2\n\"z\",3, 3\nz,v,01\n1,x, 040  ",
        DataFault::Repeated { row: 1 },
    ),
    (
        b"z,\"w\",n\r\n2,2,*\r\ny,2,000\r\n",
        DataFault::NoCountColumn,
    ),
    (
        b"\xef\xbb\xbfcount\n1\n\" 1\"\n999  \n005\n9999999999999999999999999999999999999999\n",
        DataFault::NoFactor,
    ),
    (
        b"\xef\xbb\xbfy,x,count\r\nz,2\r\nz,3,\"2\"\r\n",
        DataFault::Csv { row: 2 },
    ),
    (
        b"2,x,count\r\n\"x\",z,\" 12\"\r\nx,y,12  \r\n\"z\",z, 1  \r\nz,x,\r\nw,z,001\r\nw,x, 12\
        \r\n\"x\",x,\"40  \"\r\nz,y,*\r\nw,y,999\r\n",
        DataFault::BadCount { row: 5 },
    ),
    (
        b"\"1\",u,count\n\"x,y\",\"*\",*\n\"x,y\",0,2\n\"x,y\",,*\n\"x,y\",\"0\",*\n",
        DataFault::Repeated { row: 5 },
    ),
    (
        b"w,3,z,count\n1,\",\",y,999999\ny,1,y, 40\n1,1,\"\"\"\"\"\",\"1\"\n1,1,y,1\ny,\",\",\"\"\
        \"\"\"\",000\ny,\",\",y,3  \n",
        DataFault::TotalTooLarge,
    ),
    (b"v,z,count\ny,0, *  \n3,0,*", DataFault::NoCell),
    (
        b"3,w,u,z,count\r\n*,x,v,\xef\xbb\xbfb, 3\r\n\" \",u,w,\xef\xbb\xbfb,*\r\n*,w,\"3\",02,01\
        2\r\n*,w,1,1,999\r\n\" \",1,z,\xef\xbb\xbfb,*\r\n ,1,w,count,\"*\"\r\n\"*\",u,v,\xef\xbb\
        \xbfb,03\r\n*,1,1,\"02\",*\r\n*,u,\"y\",*,001\r\n\r\n*,1,3,*,1\r\n*,\"y\",2,\"\r\n\", 012\
        \x20 \r\n*,y,2,count,1  \r\n",
        DataFault::TooManyCells,
    ),
    (
        b"a,\xef\xbb\xbfcount,\"x,y\"\r\n\"\"\"\"\"\",3,z\r\n\"\"\"\"\"\",40,y\r\n",
        DataFault::Csv { row: 1 },
    ),
    (
        b"f1,#n,f1\r\nw,z,005  \r\nw,count, 003\r\n1,z,5  \r\n2,count,1\r\n",
        DataFault::Repeated { row: 1 },
    ),
];
